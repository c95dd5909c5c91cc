//! Ordered indexes of keys, made before readings in order.

ghost use Rattle.std.specs.Prelude.{◌≡◌};
ghost use Rattle.zq_commands.specs.Lending.{IsLending};

use crate::books::Books;
use std::alloc::Global;
use zq_words::Kind;

/// A book reads a key of more members than this by an index.
pub const MOST_SCANNED: usize = 256;

/// Makes an index of the key that a command reads in order, in each of the books that has none and
/// has many of the key's members. The books stay as they are.
pub fn make_index<B: Books>(books: &mut B, alloc: Global, kind: &Kind)
    requires { IsLending (B.lent books.old) }
    ensures same { B.lent books.new ≡ B.lent books.old }
    ensures keeps { B.keeps books.old books.new }
{
    match kind {
        Kind::Zcount { key, .. }
        | Kind::Zrank { key, .. }
        | Kind::Zrevrank { key, .. }
        | Kind::Zrange { key, .. } => index_all(books, alloc, key),
        _ => {}
    }
}

/// Makes an index of a key in each of the books.
pub fn index_all<B: Books>(books: &mut B, alloc: Global, key: &[u8])
    requires { IsLending (B.lent books.old) }
    ensures same { B.lent books.new ≡ B.lent books.old }
    ensures keeps { B.keeps books.old books.new }
{
    for place in 0..books.len() {
        books.index(alloc, place, key);
    }
}

/// Makes an index of each of the keys in each of the books.
pub fn index_each<B: Books>(books: &mut B, alloc: Global, keys: &[Vec<u8>])
    requires { IsLending (B.lent books.old) }
    ensures same { B.lent books.new ≡ B.lent books.old }
    ensures keeps { B.keeps books.old books.new }
{
    for key in keys {
        index_all(books, alloc, key);
    }
}
