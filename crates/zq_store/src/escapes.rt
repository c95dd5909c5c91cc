//! How much longer bytes become in a record.

ghost use Rattle.std.specs.Prelude.{IsFalse, IsTrue, [], length, ◌∷◌, ◌+◌, ◌≡◌, ◌≤◌};
ghost use Rattle.zq_wal.specs.Format.{escaped};

/// How many of these bytes are written as two in a record.
pub(crate) fn escapes(bytes: &[u8]) -> usize
    ensures exact { length (escaped bytes.now) ≡ length bytes.now + result }
    ensures few { result ≤ length bytes.now }
{
    let mut count = 0;
    for byte in bytes {
        if is_escaped(*byte) {
            count += 1;
        }
    }
    count
}

/// Whether a byte is written as two.
fn is_escaped(byte: u8) -> bool
    ensures two { IsTrue result → length (escaped (byte ∷ [])) ≡ 2 }
    ensures one { IsFalse result → length (escaped (byte ∷ [])) ≡ 1 }
{
    matches!(byte, 0 | 254 | 255)
}
