//! Checksums of pairs that were taken.

/// A checksum of one more pair: FNV-1a over the member's bytes, from the checksum so far and the
/// score.
pub fn folded(checksum: u64, score: i128, member: &[u8]) -> u64 {
    let mut folded = checksum ^ u64::try_from(score).unwrap_or(u64::MAX);
    for byte in member {
        folded = (folded ^ u64::from(*byte)).wrapping_mul(0x100_0000_01b3);
    }
    folded
}
