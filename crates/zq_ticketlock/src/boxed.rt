//! A value in memory of its own.

ghost use Rattle.std.specs.Prelude.{◌≡◌, None, Some, IsSome};
ghost use Rattle.std.specs.Borrow.{sem};
ghost use Rattle.std.specs.Option.Follows.{option_follows_value};
ghost use Rattle.zq_ticketlock.specs.Boxes.{the_value};

use crate::errors::NoMemory;
use std::alloc::{AllocFailed, Global};
use std::marker::Model;

/// A value in memory of its own: what moves is a pointer, however large the value is. Contracts see
/// the value.
#[derive(Drop)]
pub struct Boxed<T> {
    room: Box<Option<T>>,
    ghost full: { IsSome room.value },
}

impl<T> Model for Boxed<T> {
    ghost Value = { T };

    ghost coded = { T.code };

    ghost view = { λ b. the_value b.room.value b.full };
}

impl<T> Boxed<T> {
    ghost use Rattle.std.specs.Prelude.{◌≡◌, None, IfOk};
    ghost use Rattle.std.specs.Borrow.{sem, Lends};
    ghost use Rattle.zq_ticketlock.specs.contracts.boxed.Boxed.{the_row};

    /// Memory for a value.
    pub(crate) fn reserve(alloc: Global) -> Result<Box<Option<T>>, NoMemory>
        ensures { IfOk result (λ room. room.value ≡ None) }
    {
        match Box::new(alloc, None) {
            Ok(room) => Ok(room),
            Err(AllocFailed { value }) => {
                nothing(value);
                Err(NoMemory)
            }
        }
    }

    /// Gives back memory in which no value was put.
    pub(crate) fn give_back(room: Box<Option<T>>)
        requires { room.value ≡ None }
    {
        nothing(Box::into_inner(room));
    }

    /// The value in this memory, which was reserved for it. It takes none.
    pub(crate) fn new(mut room: Box<Option<T>>, value: T) -> Boxed<T>
        requires { room.value ≡ None }
        ensures { result ≡ value }
    {
        nothing(Box::replace(&mut room, Some(value)));
        Boxed { room }
    }

    /// The value.
    pub(crate) fn get(&self) -> &T
        ensures { result.now ≡ self.now }
    {
        match self.room.as_ref() {
            Some(value) => value,
            None => unreachable!(),
        }
    }

    /// The value, to be changed. When the borrow ends, it is what was written through it.
    pub(crate) fn get_mut(&mut self) -> &mut T
        ensures* writes_back { sem 𝓛 (Lends (the_row T.row) T.row self.entry result (λ w. w)) }
        ensures value { result.now ≡ self.old }
    {
        lent(self.room.as_mut())
    }
}

/// Lets go of an option that has no value. Its type need not be `Drop`.
fn nothing<T>(value: Option<T>)
    requires { value ≡ None }
{
    match value {
        None => {}
        Some(_) => unreachable!(),
    }
}

/// The value of an option that has one, to be changed.
fn lent<T>(place: &mut Option<T>) -> &mut T
    requires { IsSome place.old }
    ensures* writes_back { sem 𝓛 (option_follows_value T.row place.entry result) }
    ensures value { place.old ≡ Some result.now }
{
    match place {
        Some(value) => value,
        None => unreachable!(),
    }
}
