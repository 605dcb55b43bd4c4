//! What a window does over any numbers.

ghost use Rattle.krb_window.specs.Laws.{TakenOnce, IsExact};

/// Numbers are offered one after another, in any order and however often.
///
/// None is taken twice (`once`). A window that took numbers from a first one on knows each that was
/// taken, or it is too old, and knows no others from there on; below that first one it takes none
/// (`exact`). So a number from the first one on is refused only if it was taken before, or is 64 or more
/// below one that was. One below the first is refused as if it was taken, though it never was.
pub fn window_laws()
    ensures once { TakenOnce }
    ensures exact { IsExact }
{}
