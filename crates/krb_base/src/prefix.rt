//! The laws of prefixes of lists.

ghost use Rattle.std.specs.Prelude.{◌≡◌, ◌≤◌, ◌++◌, List, length};
ghost use Rattle.krb_base.specs.Prefix.{IsPrefix};

/// The laws of prefixes, over lists of any type.
///
/// A prefix is what something was appended to (`whole`), and no longer than its list (`short`).
/// Each list is its own prefix (`reflexive`), prefixes compose (`transitive`), and a prefix of the
/// same length is the list (`same_length`).
pub fn prefix_laws<T>()
    ensures whole { (front rest : List T) → IsPrefix front (front ++ rest) }
    ensures short { (front whole : List T) → IsPrefix front whole → length front ≤ length whole }
    ensures reflexive { (xs : List T) → IsPrefix xs xs }
    ensures transitive { (xs ys zs : List T) → IsPrefix xs ys → IsPrefix ys zs → IsPrefix xs zs }
    ensures same_length { (xs ys : List T) → IsPrefix xs ys → length xs ≡ length ys → xs ≡ ys }
{}
