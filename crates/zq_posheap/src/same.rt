//! Whether names are the same bytes.
ghost use Rattle.std.specs.Prelude.{IsTrue, length, ◌+◌, ◌↔◌, ◌≡◌, ◌≤◌};

/// Whether these are the same bytes. Most names are short: two comparisons of words of a known
/// length, which may share bytes, read them whole.
#[inline(always)]
pub(crate) fn is_same(a: &[u8], b: &[u8]) -> bool
    ensures { IsTrue result ↔ (a.now ≡ b.now) }
{
    if a.len() != b.len() {
        return false;
    }
    match a.len() {
        4..8 => has_same_ends::<4>(a, b),
        8..=16 => has_same_ends::<8>(a, b),
        _ => a == b,
    }
}

/// The same, of texts of one length whose first bytes, so many, and last ones leave none out.
#[inline(always)]
fn has_same_ends<const N: usize>(a: &[u8], b: &[u8]) -> bool
    requires alike { length a.now ≡ length b.now }
    requires word { N ≤ 8 }
    requires short { length a.now ≤ N + N }
    ensures { IsTrue result ↔ (a.now ≡ b.now) }
{
    let (Some(a_first), Some(b_first)) = (a.first_chunk::<N>(), b.first_chunk::<N>()) else {
        return a == b;
    };
    let (Some(a_last), Some(b_last)) = (a.last_chunk::<N>(), b.last_chunk::<N>()) else {
        return a == b;
    };
    a_first == b_first && a_last == b_last
}

/// Copies bytes over as many. Most names are short: two copies of a known length, which may share
/// bytes, write them whole.
#[inline(always)]
pub fn overwrite(bytes: &mut [u8], name: &[u8])
    requires { length bytes.old ≡ length name.now }
    ensures { bytes.new ≡ name.now }
{
    match name.len() {
        4..8 => overwrite_ends::<4>(bytes, name),
        8..=16 => overwrite_ends::<8>(bytes, name),
        _ => bytes.copy_from_slice(name),
    }
}

/// The same, where the first bytes of a name, so many, and its last ones leave none out.
#[inline(always)]
fn overwrite_ends<const N: usize>(bytes: &mut [u8], name: &[u8])
    requires alike { length bytes.old ≡ length name.now }
    requires long { N ≤ length name.now }
    requires short { length name.now ≤ N + N }
    ensures { bytes.new ≡ name.now }
{
    let last = name.len() - N;
    bytes[..N].copy_from_slice(&name[..N]);
    bytes[last..].copy_from_slice(&name[last..]);
}
