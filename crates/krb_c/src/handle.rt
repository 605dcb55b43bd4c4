//! What C holds.

ghost use Rattle.std.specs.Prelude.{◌≡◌, Option, None, Some, MatchOption};

use crate::Held;
use krb_structs::Wipe;
use std::alloc::Global;
use std::mem;

/// A value on the heap, or nothing, in a struct of C's. C makes it of zeros, which is nothing, and
/// never copies it. Each kind of value has a struct of its own: the kit lets none with a type
/// argument cross to C.
///
/// It isn't `Drop`, so that no value is lost: it ends by [`Handle::into_held`].
pub trait Handle: Sized {
    /// The kind of value.
    type Value: Wipe;

    /// What it holds.
    ghost held: { Self → Option Self.Value };

    /// Holds this.
    fn of(content: Held<Self::Value>) -> Self
        ensures { held result ≡ content.value };

    /// What it holds.
    fn into_held(self) -> Held<Self::Value>
        ensures { result.value ≡ held self };

    /// Holds nothing.
    final fn none() -> Self
        ensures { held result ≡ None }
    {
        Self::of(Held::none())
    }

    /// What it holds, which is nothing from then on.
    final fn take(&mut self, alloc: Global) -> Option<Box<Self::Value>>
        ensures taken { MatchOption result (held self.old ≡ None)
            (λ b. held self.old ≡ Some b.value) }
        ensures nothing { held self.new ≡ None }
    {
        mem::replace(self, Self::none()).into_held().into_box(alloc)
    }

    /// Holds this value. One that it held ends, and its keys are overwritten.
    final fn put(&mut self, alloc: Global, new: Box<Self::Value>)
        ensures { held self.new ≡ Some new.value }
    {
        mem::replace(self, Self::of(Held::of_box(new)))
            .into_held()
            .clear(alloc);
    }

    /// Holds nothing. A value that it held ends, and its keys are overwritten.
    final fn clear(&mut self, alloc: Global)
        ensures { held self.new ≡ None }
    {
        mem::replace(self, Self::none()).into_held().clear(alloc);
    }
}
