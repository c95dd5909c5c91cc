//! What writes lines to a device.

ghost use Rattle.std.specs.Io.KnownBytes.{Appends};
ghost use Rattle.std.specs.Prelude.{false, true, ◌∷◌, ◌≡◌};

use std::io::Write;

/// Writes whole lines to a writer. After a write that failed the next line begins with a newline.
#[derive(Drop)]
pub struct Pen<W> {
    writer: W,
    is_torn: bool,
}

impl<W: Write> Pen<W> {
    /// A pen for this writer.
    pub fn new(writer: W) -> Pen<W>
        ensures { (result.writer ≡ writer) × (result.is_torn ≡ false) }
    {
        Pen {
            writer,
            is_torn: false,
        }
    }

    /// Writes a line, in one write where the device takes it. Where the device fails the line is
    /// lost, or a part of it.
    pub fn write(&mut self, line: &[u8])
        ensures whole { self.old.is_torn ≡ false → self.new.is_torn ≡ false
            → Appends (W.contents self.old.writer) (W.contents self.new.writer) line.now }
        ensures mended { self.old.is_torn ≡ true → self.new.is_torn ≡ false
            → Appends (W.contents self.old.writer) (W.contents self.new.writer) (10 ∷ line.now) }
    {
        if self.is_torn && self.writer.write_all(b"\n").is_err() {
            return;
        }
        self.is_torn = self.writer.write_all(line).is_err();
    }
}
