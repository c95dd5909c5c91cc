//! Settings from the bytes of a file.

ghost use Rattle.std.specs.Prelude.{IfErr, IfOk};
ghost use Rattle.zq_settings.specs.Texts.{HasSettings, HasSiteSettings};
ghost use Rattle.zqueue.specs.Configured.{IsSiteUnsettled, IsUnsettled};

use std::alloc::Global;
use std::{fmt, str};
use zq_server::{Settings, SettingsFault, SiteSettings, settings, site_settings};

/// Why bytes give no settings.
#[derive(Debug, Drop)]
pub enum Unsettled {
    /// They are not UTF-8.
    NotText,
    /// The text that they are breaks a rule, or there was no memory to read it.
    Fault(SettingsFault),
}

impl fmt::Display for Unsettled {
    ghost use Rattle.zqueue.specs.Configured.{words_of};

    ghost output = { words_of };

    fn fmt<W: fmt::Write>(&self, f: &mut fmt::Formatter<W>) -> fmt::Result {
        match self {
            Unsettled::NotText => f.write_str("the file is not UTF-8"),
            Unsettled::Fault(fault) => write!(f, "{fault}"),
        }
    }
}

/// The settings of several sites that the bytes write, or the first reason for which they write
/// none.
pub fn configured(alloc: Global, bytes: &[u8]) -> Result<Settings, Unsettled>
    ensures given { IfOk result (HasSettings bytes.now) }
    ensures refused { IfErr result (IsUnsettled bytes.now) }
{
    match str::from_utf8(bytes) {
        Ok(text) => match settings(alloc, text) {
            Ok(settings) => Ok(settings),
            Err(fault) => Err(Unsettled::Fault(fault)),
        },
        Err(_) => Err(Unsettled::NotText),
    }
}

/// The settings of one site that the bytes write, or the first reason for which they write none.
pub fn site_configured(alloc: Global, bytes: &[u8]) -> Result<SiteSettings, Unsettled>
    ensures given { IfOk result (HasSiteSettings bytes.now) }
    ensures refused { IfErr result (IsSiteUnsettled bytes.now) }
{
    match str::from_utf8(bytes) {
        Ok(text) => match site_settings(alloc, text) {
            Ok(settings) => Ok(settings),
            Err(fault) => Err(Unsettled::Fault(fault)),
        },
        Err(_) => Err(Unsettled::NotText),
    }
}
