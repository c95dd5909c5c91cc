//! How the program says that it did not do what it was asked.

ghost use Rattle.std.specs.Prelude.{◌≡◌};
ghost use Rattle.zqueue.specs.Refusal.{Concludes, Finishes, Refuses, line_of, status_of};

use std::io::Write;

/// The status where the arguments or the settings are wrong.
const USAGE: u8 = 3;

/// The status where a device or memory failed.
pub const DEVICE: u8 = 4;

/// The status where another run used the number of the site.
const FENCED: u8 = 5;

/// Why the program did not do what it was asked.
#[derive(Clone, Copy, Debug, PartialEq, Eq)]
pub enum Refusal {
    /// The command line names no command.
    Usage,
    /// The settings break a rule.
    Settings,
    /// A file, a port, a thread or a stream failed.
    Device,
    /// There was no memory.
    Memory,
    /// Another run used the number of the site.
    Fenced,
}

impl Refusal {
    /// The line that standard output gets.
    fn line(self) -> &'static [u8]
        ensures { result.now ≡ line_of self }
    {
        match self {
            Refusal::Usage => b"zqueue: usage\n",
            Refusal::Settings => b"zqueue: settings\n",
            Refusal::Device => b"zqueue: device\n",
            Refusal::Memory => b"zqueue: memory\n",
            Refusal::Fenced => b"zqueue: number\n",
        }
    }

    /// The program's status.
    fn status(self) -> u8
        ensures { result ≡ status_of self }
    {
        match self {
            Refusal::Usage | Refusal::Settings => USAGE,
            Refusal::Device | Refusal::Memory => DEVICE,
            Refusal::Fenced => FENCED,
        }
    }
}

/// Writes the line of the refusal, and answers its status; where the line cannot be written, that
/// of a device.
pub fn refuse<W: Write>(refusal: Refusal, writer: &mut W) -> u8
    ensures { Refuses (W.contents writer.old) (W.contents writer.new) refusal result }
{
    match writer.write_all(refusal.line()) {
        Ok(()) => refusal.status(),
        Err(_) => DEVICE,
    }
}

/// The status of a program that served, or the refusal of one that could not begin, which is
/// written.
pub fn conclude<W: Write>(served: Result<u8, Refusal>, writer: &mut W) -> u8
    ensures { Concludes (W.contents writer.old) (W.contents writer.new) served result }
{
    match served {
        Ok(status) => status,
        Err(refusal) => refuse(refusal, writer),
    }
}

/// The status of a program that did what it was asked, which is 0, or did not: then the line of the
/// refusal is written.
pub fn finish<W: Write>(ended: Result<(), Refusal>, writer: &mut W) -> u8
    ensures { Finishes (W.contents writer.old) (W.contents writer.new) ended result }
{
    match ended {
        Ok(()) => 0,
        Err(refusal) => refuse(refusal, writer),
    }
}
