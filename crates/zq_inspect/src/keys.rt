//! How many keys a heap has.

ghost use Rattle.std.specs.Option.{option_copied};
ghost use Rattle.std.specs.Prelude.{None, map, ◌≡◌};
ghost use Rattle.zq_inspect.specs.Keys.{is_key, key_of, keys_from};

use zq_shard::RowRef;

/// How many keys these rows are of, which stand by key.
pub(crate) fn count_keys(rows: &[RowRef<'_>]) -> usize
    ensures { result ≡ keys_from None (map key_of rows.now) }
{
    let mut keys: usize = 0;
    let mut last: Option<&[u8]> = None;
    for row in rows {
        if !is_same(last, row.key) {
            keys += 1;
        }
        last = Some(row.key);
    }
    keys
}

/// Whether the key is the last one.
fn is_same(last: Option<&[u8]>, key: &[u8]) -> bool
    ensures { result ≡ is_key (option_copied last.entry) key.now }
{
    match last {
        Some(last) => last == key,
        None => false,
    }
}
