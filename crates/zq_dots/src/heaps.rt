//! Which heap a member lies in, by its hash.

ghost use Rattle.std.specs.Prelude.{◌%◌, ◌≡◌, ◌≤◌, ◌<◌, fold, length};
ghost use Rattle.zq_model.specs.Heaps as place;
ghost use Rattle.zq_model.specs.Operation.{LONGEST};

/// The hash of no bytes.
const OFFSET_BASIS: u64 = 14_695_981_039_346_656_037;

/// What each byte multiplies the hash by.
const PRIME: u64 = 1_099_511_628_211;

/// The 64-bit FNV-1a hash of the bytes
/// (<http://www.isthe.com/chongo/tech/comp/fnv/>).
#[tactic(auto, unfolding(zq_model::specs::Heaps::fnv1a64))]
pub fn fnv1a64(bytes: &[u8]) -> u64
    ensures { result ≡ place.fnv1a64 bytes.now }
{
    hash_from(OFFSET_BASIS, bytes)
}

/// The heap of a member of a key, of this number of heaps: the FNV-1a hash of the key's length in
/// four bytes, the highest first, the key and the member, modulo the number of heaps. There are 1
/// to 16 heaps, and the key has at most `LONGEST` bytes.
pub fn heap_of(key: &[u8], member: &[u8], heaps: u8) -> u8
    requires heaps { (1 ≤ heaps) × (heaps ≤ 16) }
    requires key { length key.now ≤ LONGEST }
    ensures heap { result ≡ place.heap_of key.now member.now heaps }
    ensures below { result < heaps }
{
    let prefix = (key.len() as u32).to_be_bytes();
    let hash = hash_from(hash_from(hash_from(OFFSET_BASIS, &prefix), key), member);
    remainder(hash, heaps) as u8
}

/// What is left of a hash modulo the number of heaps. By a power of two that stands here it takes
/// no division, which would take as long as the hash of a short member.
fn remainder(hash: u64, heaps: u8) -> u64
    requires { 1 ≤ heaps }
    ensures { result ≡ hash % heaps }
{
    match heaps {
        2 => hash % 2,
        4 => hash % 4,
        8 => hash % 8,
        16 => hash % 16,
        _ => hash % heaps as u64,
    }
}

/// The hash of what was hashed before and these bytes after it.
fn hash_from(start: u64, bytes: &[u8]) -> u64
    ensures { result ≡ fold place.fnv1a64_step start bytes.now }
{
    let mut hash = start;
    for byte in bytes {
        hash = (hash ^ *byte as u64).wrapping_mul(PRIME);
    }
    hash
}
