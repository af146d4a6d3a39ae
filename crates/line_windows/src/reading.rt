//! The lines of a window are read, side by side in threads.

ghost use Rattle.std.specs.Prelude.{◌≡◌, ◌<◌, ℕ, List, [], IfNone, IfSome, length};
ghost use Rattle.session_text.specs.declared.request.Request.TheVariants.{Push};
ghost use Rattle.line_windows.specs.Windows.{AreOf, Gives, IsOf, IsPush};

use crate::WindowLine;
use otlp_spans::Reading;
use rayon::prelude::*;
use session_text::{Refusal, Request, read_push};
use std::alloc::Global;
use std::thread::Threads;

// So many bytes are read by threads. Fewer are left to whoever pushes the lines, since a thread costs more.
const LEAST_TEXT: usize = 32_768;

/// Reads the lines of a window in threads, unless they have few bytes. Out of memory for a line, that line is refused
/// for it, and no other one.
pub fn read_all<R: Threads + Sync>(rt: &R, alloc: Global, window: &mut [WindowLine])
    ensures len { length window.new ≡ length window.old }
    ensures lines { (lines : List (List ℕ)) → AreOf lines window.old → AreOf lines window.new }
{
    if text_len(window) < LEAST_TEXT {
        return;
    }
    par_for_each_mut(
        rt,
        window,
        move |_place: usize, line: &mut WindowLine|
            ensures { (bytes : List ℕ) → IsOf bytes line.old → IsOf bytes line.new }
        { read(alloc, line) },
    );
}

// How many bytes are not read yet.
fn text_len(window: &[WindowLine]) -> usize {
    let mut sum: usize = 0;
    for line in window {
        if let WindowLine::Unread(bytes) = line {
            sum = sum.saturating_add(bytes.len());
        }
    }
    sum
}

/// Reads a line, unless it was read or has no bytes.
pub fn read(alloc: Global, line: &mut WindowLine)
    ensures { (bytes : List ℕ) → IsOf bytes line.old → IsOf bytes line.new }
{
    match line {
        WindowLine::Unread(bytes) => {
            let read = line_gives(alloc, bytes.as_slice());
            *line = WindowLine::Read(read);
        }
        WindowLine::Empty => {}
        WindowLine::Read(_) => {}
    }
}

/// What a line gives; nothing where it has no bytes. It is read, if it wasn't.
pub fn given(alloc: Global, line: WindowLine) -> Option<Result<Reading, Refusal>>
    ensures some { IfSome result (λ given. (bytes : List ℕ) → IsOf bytes line
        → (0 < length bytes) × Gives bytes given) }
    ensures none { IfNone result ((bytes : List ℕ) → IsOf bytes line → bytes ≡ []) }
{
    match line {
        WindowLine::Empty => None,
        WindowLine::Unread(bytes) => Some(line_gives(alloc, bytes.as_slice())),
        WindowLine::Read(given) => Some(given),
    }
}

// What a line with these bytes gives, whenever it is pushed.
fn line_gives(alloc: Global, line: &[u8]) -> Result<Reading, Refusal>
    ensures { Gives line.now result }
{
    match read_push(alloc, line, 0) {
        Ok(request) => Ok(reading_of(request)),
        Err(why) => Err(why),
    }
}

// What a push has.
fn reading_of(request: Request) -> Reading
    requires { IsPush request }
    ensures { (moment : ℕ) × (request ≡ Push result moment) }
{
    let Request::Push { reading, .. } = request else {
        unreachable!()
    };
    reading
}
