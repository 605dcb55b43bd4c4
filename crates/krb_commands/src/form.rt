//! How the input of `show` is read.

/// How the input of `show` is read.
#[derive(Clone, Copy, Debug, PartialEq, Eq)]
pub enum Form {
    /// Each line is one text, and no byte of it is left out.
    Lines,
    /// Separators may stand between digits, and all lines together may spell one message.
    Any,
}
