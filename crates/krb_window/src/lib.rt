//! A window over the numbers of messages, for transports that bring them in any order: it takes each
//! number once, up to 63 below the highest that it took.
//!
//! ```text
//! let mut window = Window::new(first);
//! window.take(number)?;   // after the message was opened: it is authentic, and has this number
//! ```
//!
//! [`window_laws`] says what a window does over any numbers that are offered to it.
#![tactic(auto)]

mod laws;
mod window;

pub use laws::window_laws;
pub use window::{Untaken, WINDOW_SIZE, Window};
