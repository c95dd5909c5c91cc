//! Vectors cut in half.
ghost use Rattle.std.specs.Prelude.{IfNone, IfSome, [], length, vec_capacity, ◌++◌, ◌<◌, ◌≡◌, ◌≤◌};

use std::alloc::Global;

/// Moves the upper half of a vector that is full into one of its own. Where it is not, or memory is
/// refused, it stays.
pub(crate) fn upper_half<T>(alloc: Global, items: &mut Vec<T>, full: usize) -> Option<Vec<T>>
    requires { 2 ≤ full }
    ensures items { IfSome result (λ upper. items.old.items ≡ items.new.items ++ upper.items) }
    ensures lower { IfSome result (λ upper. 0 < length items.new.items) }
    ensures upper { IfSome result (λ upper. 0 < length upper.items) }
    ensures stays { IfNone result (items.new.items ≡ items.old.items) }
{
    if items.len() < full {
        return None;
    }
    let Ok(mut upper) = Vec::with_capacity(alloc, full) else {
        return None;
    };
    move_last(items, full / 2, &mut upper);
    Some(upper)
}

/// Moves so many of the last items of a vector to another, which has none and has room for them.
fn move_last<T>(from: &mut Vec<T>, count: usize, to: &mut Vec<T>)
    requires there { count ≤ length from.old.items }
    requires room { count ≤ vec_capacity to.old }
    requires none { to.old.items ≡ [] }
    ensures items { from.old.items ≡ from.new.items ++ to.new.items }
    ensures moved { length to.new.items ≡ count }
{
    for _ in 0..count {
        let Some(item) = from.pop() else {
            unreachable!()
        };
        to.push_reserved(item);
    }
    to.reverse();
}
