//! Windows of lines: the lines of a source that are at hand, read as pushes side by side in threads.
//!
//! - `line` has a line of a window, `WindowLine`, and what it gives.
//! - `window` has `window_from`: a line that was read, and those after it that the reader has at hand.
//! - `reading` has `read_all`: the lines of a window are read in threads.
//!
//! No source is asked for a window, so no reply waits for a line that isn't there. What a line gives is what it gives
//! by itself, whichever are read side by side.
#![tactic(auto)]

mod line;
mod reading;
mod window;

pub use line::{WindowLine, too_long, whole};
pub use reading::{given, read, read_all};
pub use window::window_from;
