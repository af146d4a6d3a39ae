//! A line that was read, and those after it that the reader has at hand.

ghost use Rattle.std.specs.Prelude.{◌≡◌, ◌++◌, ◌<◌, ◌≤◌, ◌+◌, ℕ, List, [], ◌∷◌, Option, IfErr, IfNone, IfOk, IfSome, OnErr, vec_capacity, vec_len};
ghost use Rattle.io_edges.specs.Reader.{IsNextLine, IsToRead, to_come};
ghost use Rattle.line_windows.specs.Windows.{IsOf, IsWindow};

use crate::WindowLine;
use crate::line::{too_long, whole};
use io_edges::{Line, LineReader};
use span_types::Memory;
use std::alloc::Global;

// How many lines a window has at most.
const MOST_LINES: usize = 64;

/// A window of a line that was read, and of those after it, 63 at most, that the reader has at hand. The source isn't
/// asked. Out of memory the line is handed back, and the reader stands.
pub fn window_from(
    alloc: Global,
    reader: &mut LineReader,
    first: WindowLine,
) -> Result<Vec<WindowLine>, WindowLine>
    // Whatever remains in the source, the lines are the next ones of the text that is still to be read.
    ensures lines { IfOk result (λ window. (line : List ℕ) (left : Option (List ℕ))
        (text : List ℕ) → IsOf line first → IsToRead reader.old left text
        → IsWindow line text window.items (IsToRead reader.new left)) }
    ensures taken { reader.new.taken ≡ reader.old.taken }
    ensures nearer { to_come reader.new ≤ to_come reader.old }
    ensures same { IfErr result (λ line. line ≡ first) }
    ensures stands { OnErr result (reader.new ≡ reader.old) }
{
    match begin(alloc, first) {
        Ok(mut window) => {
            add_at_hand(reader, &mut window);
            Ok(window)
        }
        Err(line) => Err(line),
    }
}

// A window of one line, with room for the most lines. Out of memory the line is handed back.
fn begin(alloc: Global, first: WindowLine) -> Result<Vec<WindowLine>, WindowLine>
    ensures line { IfOk result (λ window. window.items ≡ first ∷ []) }
    ensures room { IfOk result (λ window. 64 ≤ vec_capacity window) }
    ensures same { IfErr result (λ line. line ≡ first) }
{
    let Ok(mut window) = Vec::with_capacity(alloc, MOST_LINES) else {
        return Err(first);
    };
    put(&mut window, first);
    Ok(window)
}

// Adds the lines that the reader has at hand, as far as there is room.
fn add_at_hand(reader: &mut LineReader, window: &mut Vec<WindowLine>)
    requires { 64 ≤ vec_capacity window.old }
    ensures lines { (line : List ℕ) (left : Option (List ℕ)) (text : List ℕ)
        → IsWindow line text window.old.items (IsToRead reader.old left)
        → IsWindow line text window.new.items (IsToRead reader.new left) }
    ensures taken { reader.new.taken ≡ reader.old.taken }
    ensures nearer { to_come reader.new ≤ to_come reader.old }
{
    'lines: while window.len() < MOST_LINES {
        match at_hand(reader) {
            Some(line) => put(window, line),
            None => return,
        }
    }
}

// The next line, if the reader has it at hand, and if there is memory for it.
fn at_hand(reader: &mut LineReader) -> Option<WindowLine>
    ensures some { IfSome result (λ found. (left : Option (List ℕ)) (text : List ℕ)
        → IsToRead reader.old left text
        → (line : List ℕ) × IsNextLine text line (IsToRead reader.new left) × IsOf line found) }
    ensures none { IfNone result ((left : Option (List ℕ)) (text : List ℕ)
        → IsToRead reader.old left text → IsToRead reader.new left text) }
    ensures taken { reader.new.taken ≡ reader.old.taken }
    ensures nearer { to_come reader.new ≤ to_come reader.old }
{
    let line = match reader.at_hand() {
        Ok(Some(line)) => line,
        Ok(None) => return None,
        Err(Memory) => return None,
    };
    match line {
        Line::Whole(bytes) => Some(whole(bytes)),
        Line::TooLong { length } => Some(too_long(length)),
        Line::End => None,
        Line::Spent { .. } => None,
    }
}

// Puts a line after others, where there is room for it.
fn put(window: &mut Vec<WindowLine>, line: WindowLine)
    requires { vec_len window.old < vec_capacity window.old }
    ensures put { window.new.items ≡ window.old.items ++ line ∷ [] }
    ensures longer { vec_len window.new ≡ vec_len window.old + 1 }
    ensures room { vec_capacity window.old ≤ vec_capacity window.new }
{
    let Ok(()) = window.push(line) else {
        unreachable!()
    };
}
