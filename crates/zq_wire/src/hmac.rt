//! The tag of a message by a key.

ghost use Rattle.sha2.specs.Sha256.{sha256};
ghost use Rattle.std.specs.List.{flat_map};
ghost use Rattle.std.specs.Prelude.{◌≡◌, ◌≤◌, ◌++◌, length};
ghost use Rattle.zq_wire.specs.Hmac.{filled, hmac, key_block, masked};

use sha2::{Digest, Sha256};

// The bytes of a block of SHA-256.
const BLOCK: usize = 64;

// What the bytes of the key are turned by, inside and outside.
const INNER: u8 = 0x36;

const OUTER: u8 = 0x5C;

/// The tag of the message that the parts are, one after the other, by a key of any length.
pub fn mac(key: &[u8], parts: &[&[u8]]) -> [u8; 32]
    ensures { result ≡ hmac key.now (flat_map (λ part. part.now) parts.now) }
{
    let block = block_of(key);
    let inner = digest_of(&masked_by(INNER, &block), parts);
    digest_of(&masked_by(OUTER, &block), &[&inner])
}

/// The key as a block: one that is longer is hashed first, and zeros follow.
fn block_of(key: &[u8]) -> [u8; BLOCK]
    ensures { result ≡ key_block key.now }
{
    if key.len() > BLOCK {
        let digest = Sha256::digest(key);
        fill(&digest)
    } else {
        fill(key)
    }
}

/// The bytes, at most a block, and zeros behind them.
fn fill(bytes: &[u8]) -> [u8; BLOCK]
    requires { length bytes.now ≤ 64 }
    ensures { result ≡ filled bytes.now }
{
    let mut block = [0; BLOCK];
    block[..bytes.len()].copy_from_slice(bytes);
    block
}

/// Each byte of a block with the bits of the mask turned.
fn masked_by(mask: u8, block: &[u8; BLOCK]) -> [u8; BLOCK]
    ensures { result ≡ masked mask block.now }
{
    let mut out = [0; BLOCK];
    for (index, byte) in block.iter().enumerate() {
        out[index] = byte ^ mask;
    }
    out
}

/// The digest of a block with the parts behind it.
fn digest_of(block: &[u8; BLOCK], parts: &[&[u8]]) -> [u8; 32]
    ensures { result ≡ sha256 (block.now ++ flat_map (λ part. part.now) parts.now) }
{
    let mut hasher = Sha256::new();
    hasher.update(block.as_slice());
    for part in parts {
        hasher.update(*part);
    }
    hasher.finalize()
}
