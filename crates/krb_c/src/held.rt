//! A value on the heap, or nothing.

ghost use Rattle.std.specs.Prelude.{◌≡◌, Option, None, Some, MatchOption};
ghost use Rattle.std.specs.Coded.{coded_option};
ghost use Rattle.krb_c.specs.Held.{owns};

use crate::parts::Parts;
use krb_structs::Wipe;
use std::alloc::Global;
use std::marker::Model;
use std::ptr;

/// A value on the heap, or nothing.
///
/// It isn't `Drop`, so that no value is lost: it ends by [`Held::into_box`] or [`Held::clear`].
pub struct Held<T> {
    /// Where it is.
    pub at: *mut T,
    /// 1 where it is a value, else 0.
    pub count: usize,
    pub ghost value: { Option T } by { coded_option T.code },
}

impl<T> Model for Held<T> {
    ghost also_owns = { λ h. owns T.row h.at h.count h.value };
}

impl<T> Held<T> {
    /// Nothing.
    pub fn none() -> Held<T>
        ensures { result.value ≡ None }
    {
        Held {
            at: ptr::null_mut(),
            count: 0,
        }
    }

    /// Ends what is nothing.
    fn end(self)
        requires { ¬ (self.count ≡ 1) }
        ensures { self.value ≡ None }
    {
        let Held { at: _, count: _ } = self;
    }

    fn of_parts(parts: Parts<T, Global>) -> Held<T>
        ensures { result.value ≡ Some parts.value }
    {
        let Parts { ptr, alloc: _ } = parts;
        Held { at: ptr, count: 1 }
    }

    fn into_parts(self, alloc: Global) -> Parts<T, Global>
        requires { self.count ≡ 1 }
        ensures { self.value ≡ Some result.value }
    {
        let Held { at, count: _ } = self;
        Parts { ptr: at, alloc }
    }

    /// How many values it is, and itself again.
    fn counted(self) -> (usize, Held<T>)
        ensures { (result.0 ≡ self.count) × (result.1 ≡ self) }
    {
        let Held { at, count } = self;
        (count, Held { at, count })
    }

    /// The value in a box, if it is one.
    pub fn into_box(self, alloc: Global) -> Option<Box<T>>
        ensures { MatchOption result (self.value ≡ None) (λ b. self.value ≡ Some b.value) }
    {
        let (count, held) = self.counted();
        if count == 1 {
            Some(held.into_parts(alloc).into_box())
        } else {
            held.end();
            None
        }
    }
}

impl<T: Drop> Held<T> {
    /// The value of a box.
    pub fn of_box(value: Box<T>) -> Held<T>
        ensures { result.value ≡ Some value.value }
    {
        Held::of_parts(Parts::of(value))
    }
}

impl<T: Wipe> Held<T> {
    /// Ends it. The keys of a value are overwritten.
    pub fn clear(self, alloc: Global) {
        if let Some(held) = self.into_box(alloc) {
            end_held(held);
        }
    }
}

/// Ends a value. A drop moves the value first, so its keys are overwritten on the heap before.
fn end_held<T: Wipe>(mut held: Box<T>) {
    held.wipe();
    spend(held);
}

/// Ends a value whose keys are overwritten.
fn spend<T: Wipe>(_held: Box<T>)
    requires { T.IsWiped _held.value }
{}
