//! A file in memory, and what a crash leaves of it.
ghost use Rattle.std.specs.Prelude.{◌≡◌, ◌≤◌, ◌⊎◌, [], take, IfOk};
ghost use Rattle.zq_wal.specs.Image.{LeftOf, bytes_of};

use std::alloc::{AllocError, Global};

/// A file in memory: the bytes that are on the disk, and those that were written behind them since
/// the last sync.
#[derive(Drop)]
pub struct Image {
    pub firm: Vec<u8>,
    pub loose: Vec<u8>,
}

impl Image {
    /// A file of these bytes, all of them on the disk.
    pub(crate) fn of(alloc: Global, firm: Vec<u8>) -> Image
        ensures firm { result.firm.items ≡ firm.items }
        ensures loose { result.loose.items ≡ [] }
    {
        Image {
            firm,
            loose: Vec::new(alloc),
        }
    }

    /// All of its bytes.
    pub fn contents(&self, alloc: Global) -> Result<Vec<u8>, AllocError>
        ensures { IfOk result (λ bytes. bytes.items ≡ bytes_of self.now) }
    {
        let mut bytes = self.firm.to_vec(alloc)?;
        bytes.extend_from_slice(&self.loose)?;
        Ok(bytes)
    }

    /// The same file once more.
    pub(crate) fn copy(&self, alloc: Global) -> Result<Image, AllocError>
        ensures firm { IfOk result (λ copy. copy.firm.items ≡ self.now.firm.items) }
        ensures loose { IfOk result (λ copy. copy.loose.items ≡ self.now.loose.items) }
    {
        let firm = self.firm.to_vec(alloc)?;
        let loose = self.loose.to_vec(alloc)?;
        Ok(Image { firm, loose })
    }

    /// Its first bytes, so many, as bytes that are on the disk.
    pub(crate) fn front(&self, alloc: Global, len: usize) -> Result<Image, AllocError>
        ensures firm { IfOk result (λ front. front.firm.items ≡ take len (bytes_of self.now)) }
        ensures loose { IfOk result (λ front. front.loose.items ≡ []) }
    {
        let mut bytes = self.contents(alloc)?;
        bytes.truncate(len);
        Ok(Image::of(alloc, bytes))
    }

    /// What a crash leaves of it: of each byte that is not on the disk this says whether it is
    /// there, or is still 0; those of which nothing is said are missing.
    pub fn torn(&self, alloc: Global, kept: &[bool]) -> Result<Vec<u8>, AllocError>
        ensures { IfOk result (λ left. LeftOf self.now left.items) }
    {
        let mut left = self.firm.to_vec(alloc)?;
        let many = shorter(kept.len(), self.loose.len());
        for at in 0..many {
            left.push(left_byte(self.loose[at], kept[at]))?;
        }
        Ok(left)
    }
}

/// The lower length of two.
fn shorter(a: usize, b: usize) -> usize
    ensures { (result ≤ a) × (result ≤ b) }
{
    if a < b { a } else { b }
}

/// A byte that is kept, or 0.
fn left_byte(byte: u8, kept: bool) -> u8
    ensures { (result ≡ byte) ⊎ (result ≡ 0) }
{
    if kept { byte } else { 0 }
}
