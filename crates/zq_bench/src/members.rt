//! Members, which are of one length.

/// The length of a member.
pub const LENGTH: usize = 15;

/// `member:` and the last eight decimal digits of a number.
pub fn member_of(number: u32) -> [u8; LENGTH] {
    let mut text = *b"member:00000000";
    let mut rest = number;
    for place in (7..LENGTH).rev() {
        text[place] = b'0' + (rest % 10) as u8;
        rest /= 10;
    }
    text
}
