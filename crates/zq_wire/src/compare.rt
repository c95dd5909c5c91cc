//! The comparison of tags.

ghost use Rattle.std.specs.Prelude.{◌≡◌, ◌↔◌, IsTrue};

/// Whether two tags are the same. All bytes are looked at, whatever they are, so that the time that
/// it takes says nothing of the place of a difference.
pub fn is_same_tag(one: &[u8; 32], other: &[u8; 32]) -> bool
    ensures { IsTrue result ↔ (one.now ≡ other.now) }
{
    let mut differing = 0;
    for (index, byte) in one.iter().enumerate() {
        differing = gather(differing, *byte, other[index]);
    }
    differing == 0
}

/// The bits that differed before, and those in which two bytes differ.
fn gather(differing: u8, byte: u8, other: u8) -> u8
    ensures { (result ≡ 0) ↔ ((differing ≡ 0) × (byte ≡ other)) }
{
    differing | (byte ^ other)
}
