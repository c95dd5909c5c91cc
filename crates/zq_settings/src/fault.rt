//! Why there are no settings.

use crate::why::Why;
use std::alloc::AllocError;
use std::error::Error;
use std::fmt;

/// Why a text gives no settings.
#[derive(Debug, Drop)]
pub enum SettingsFault {
    /// The text breaks a rule.
    Refused(Why),
    /// There was no memory to read it. It may be right or wrong.
    NoMemory,
}

impl fmt::Display for SettingsFault {
    ghost use Rattle.zq_settings.specs.Words.{fault_words};

    ghost output = { fault_words };

    fn fmt<W: fmt::Write>(&self, f: &mut fmt::Formatter<W>) -> fmt::Result {
        match self {
            SettingsFault::Refused(why) => write!(f, "{why}"),
            SettingsFault::NoMemory => f.write_str("no memory"),
        }
    }
}

impl Error for SettingsFault {}

impl From<Why> for SettingsFault {
    ghost use Rattle.std.specs.Prelude.{◌≡◌};
    ghost use Rattle.zq_settings.specs.declared.fault.SettingsFault.TheVariants.{Refused};

    ghost from_gives = { λ why fault. fault ≡ Refused why };

    fn from(why: Why) -> SettingsFault {
        SettingsFault::Refused(why)
    }
}

impl From<AllocError> for SettingsFault {
    ghost use Rattle.std.specs.Prelude.{◌≡◌};
    ghost use Rattle.zq_settings.specs.declared.fault.SettingsFault.TheVariants.{NoMemory};

    ghost from_gives = { λ _ fault. fault ≡ NoMemory };

    fn from(_error: AllocError) -> SettingsFault {
        SettingsFault::NoMemory
    }
}
