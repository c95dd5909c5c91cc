//! Why bytes do not begin with a part.

/// Why bytes do not begin with a part: the first field from the left that is missing or out of its
/// range.
#[derive(Clone, Copy, Debug, PartialEq, Eq)]
pub enum PartFault {
    /// Bytes of a field are missing.
    Short,
    /// The field that begins at this place, from 0 at the frame's first byte, is out of its range.
    Field(usize),
    /// The length of a key or a member is above 1048576.
    Length,
    /// The amount of a score or an increment is above 9007199254740992.
    Score,
}
