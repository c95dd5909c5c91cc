//! How large a heap is.

ghost use Rattle.std.specs.Prelude.{◌≡◌};

use zq_shard::RowRef;

/// How many members and keys a heap has, and how many bytes their names have, each within 64 bits.
#[derive(Clone, Copy, Debug, PartialEq, Eq)]
pub struct HeapSize {
    pub members: u64,
    pub keys: u64,
    pub bytes: u64,
}

impl HeapSize {
    ghost use Rattle.zq_site.specs.Sizes as wanted;

    /// Of a heap that has nothing.
    pub fn none() -> HeapSize
        ensures { result ≡ wanted.none }
    {
        HeapSize {
            members: 0,
            keys: 0,
            bytes: 0,
        }
    }

    /// With the members of a piece of a heap, which stand in the heap's order: a walk begins with the
    /// last ones. The key of the last one counts where the walk had not come to it before.
    pub fn add_piece(&mut self, rows: &[RowRef<'_>], is_in_key: bool) {
        for place in 0..rows.len() {
            let is_new = match rows.get(place + 1) {
                Some(before) => before.key != rows[place].key,
                None => !is_in_key,
            };
            if is_new {
                self.add_key(rows[place].key.len());
            }
            self.add_member(rows[place].member.len());
        }
    }

    /// With one key more, whose name has so many bytes.
    fn add_key(&mut self, bytes: usize)
        ensures { self.new ≡ wanted.with_key bytes self.old }
    {
        self.keys = self.keys.saturating_add(1);
        self.bytes = self.bytes.saturating_add(bytes as u64);
    }

    /// With one member more, whose name has so many bytes.
    fn add_member(&mut self, bytes: usize)
        ensures { self.new ≡ wanted.with_member bytes self.old }
    {
        self.members = self.members.saturating_add(1);
        self.bytes = self.bytes.saturating_add(bytes as u64);
    }
}
