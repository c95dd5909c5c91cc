//! The password of a site's clients, of a file.

ghost use Rattle.std.specs.Option.{is_some};
ghost use Rattle.std.specs.Prelude.{IfOk, ◌≡◌};

use crate::refusal::Refusal;
use crate::settling::read_file;
use std::alloc::Global;
use std::rt::Files;
use zq_server::{Password, SiteSettings};

/// What is wrong with a file that has none.
const NO_DIGEST: &str =
    "the file does not begin with the 64 hexadecimal digits of a SHA-256 digest";

/// The password of the file that the settings name, where they name one. A file that cannot be read
/// is a device that failed; one that does not begin with a digest is a wrong setting. Standard
/// error names the file, and shows nothing that stands in it.
pub fn read_password<R>(rt: &R, settings: &SiteSettings) -> Result<Option<Password>, Refusal>
where
    R: Files + Eprint + Alloc<A = Global>,
    ensures { IfOk result
        (λ password. is_some password ≡ is_some settings.now.protection.password_file) }
{
    let Some(file) = &settings.protection.password_file else {
        return Ok(None);
    };
    let path = file.as_str();
    let bytes = read_file(rt, path)?;
    let Some(password) = Password::read(&bytes) else {
        let _ = eprintln!(rt; "zqueue: {path}: {NO_DIGEST}");
        return Err(Refusal::Settings);
    };
    Ok(Some(password))
}
