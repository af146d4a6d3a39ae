//! A line of a window, before it is pushed.

ghost use Rattle.std.specs.Prelude.{◌≡◌, ◌<◌, ℕ, List, length};
ghost use Rattle.io_edges.specs.Lines.{line_limit};
ghost use Rattle.line_windows.specs.Windows.{IsOf};

use io_edges::Text8;
use otlp_spans::Reading;
use session_text::Refusal;

/// A line of a window.
#[derive(Drop)]
pub enum WindowLine {
    /// It has no bytes.
    Empty,
    /// These are its bytes, which aren't read yet.
    Unread(Text8),
    /// It was read, and gives this if it is pushed.
    Read(Result<Reading, Refusal>),
}

/// A line with these bytes.
pub fn whole(bytes: Text8) -> WindowLine
    ensures { IsOf bytes result }
{
    if bytes.len() == 0 {
        return WindowLine::Empty;
    }
    WindowLine::Unread(bytes)
}

/// A line with so many bytes, which are too many and aren't kept.
pub fn too_long(size: u64) -> WindowLine
    requires { line_limit < size }
    ensures { (line : List ℕ) → size ≡ length line → IsOf line result }
{
    WindowLine::Read(Err(Refusal::TooLong { length: size }))
}
