//! Settings of a file, or how the program refuses it.

ghost use Rattle.std.specs.Prelude.{IfErr, IfOk, ◌≡◌, ◌≢◌};
ghost use Rattle.zqueue.specs.Configured.{refusal_of};
ghost use Rattle.zqueue.specs.Refusal.{IsUnread};
ghost use Rattle.zqueue.specs.declared.configured.Unsettled.{Unsettled};

use crate::configured::Unsettled;
use crate::refusal::Refusal;
use std::alloc::Global;
use std::fs;
use std::io::ErrorKind;
use std::rt::Files;
use zq_server::SettingsFault;

/// The bytes of the file. A file that is not there or cannot be read is a device that failed, and
/// standard error says what the system said of it.
pub fn read_file<R>(rt: &R, path: &str) -> Result<Vec<u8>, Refusal>
where
    R: Files + Eprint + Alloc<A = Global>,
    ensures { IfErr result IsUnread }
{
    match fs::read(rt, path) {
        Ok(bytes) => Ok(bytes),
        Err(error) => {
            let _ = eprintln!(rt; "zqueue: {path}: {error}");
            Err(unread(error.kind()))
        }
    }
}

/// How the program refuses a file that could not be read.
fn unread(kind: ErrorKind) -> Refusal
    ensures memory { kind ≡ ErrorKind.OutOfMemory → result ≡ Refusal.Memory }
    ensures device { kind ≢ ErrorKind.OutOfMemory → result ≡ Refusal.Device }
    ensures unread { IsUnread result }
{
    match kind {
        ErrorKind::OutOfMemory => Refusal::Memory,
        _ => Refusal::Device,
    }
}

/// The settings that were read of the file of this name; where there are none, the refusal. Standard
/// error names the file, and the rule that it breaks.
pub fn settled<S: Drop, R: Eprint>(
    rt: &R,
    path: &str,
    read: Result<S, Unsettled>,
) -> Result<S, Refusal>
    ensures given { IfOk result (λ settings. read ≡ Ok settings) }
    ensures refused { IfErr result (λ refusal. (why : Unsettled) × (read ≡ Err why)
        × (refusal ≡ refusal_of why)) }
{
    match read {
        Ok(settings) => Ok(settings),
        Err(Unsettled::Fault(SettingsFault::NoMemory)) => Err(Refusal::Memory),
        Err(why) => {
            let _ = eprintln!(rt; "zqueue: {path}: {why}");
            Err(Refusal::Settings)
        }
    }
}
