//! The rows of a block that is held as its bytes, one after another.

ghost use Rattle.std.specs.Prelude.{◌≡◌, ◌<◌, ◌≤◌, [], IfOk, IfSome, None, false, true};
ghost use Rattle.block_cursor.specs.Wholes.{BeginsWith, TakesFirst};

use crate::block::ReadBlock;
use block_info::MOST_STRIPES;
use span_types::{Memory, Row, TraceId};
use std::alloc::Global;
use std::collections::VecDeque;
use std::marker::Model;
use std::mem;

/// The rows of a block that aren't taken yet. A stripe of them is in memory at once.
#[derive(Drop)]
pub struct RowsLeft<'a> {
    alloc: Global,
    block: &'a ReadBlock,
    // the number of the next stripe that isn't read
    number: usize,
    // the rows that are read; none only if all are taken
    rows: VecDeque<Row>,
}

impl<'a> Model for RowsLeft<'a> {
    ghost use Rattle.std.specs.Prelude.{List, ◌*◌, ◌++◌, drop};
    ghost use Rattle.span_types.specs.declared.spans.Row.{Row};
    ghost use Rattle.block_cursor.specs.Wholes.{IsLeft};

    ghost Value = { List Row };

    ghost view = { λ left. left.rows.items ++ drop (256 * left.number) left.block.now };

    ghost invariant = { λ left. IsLeft left.rows.items (drop (256 * left.number) left.block.now) };
}

impl<'a> RowsLeft<'a> {
    /// All rows of a block, in block order.
    pub fn of(alloc: Global, block: &'a ReadBlock) -> Result<RowsLeft<'a>, Memory>
        ensures { IfOk result (λ left. left ≡ block.now) }
    {
        block.are_its_rows();
        let rows = block.stripe(alloc, 0)?;
        Ok(RowsLeft {
            alloc,
            block,
            number: 1,
            rows: VecDeque::from_vec(rows),
        })
    }

    /// The trace of the next row. The others are of this trace, or of one that comes after it.
    pub fn trace(&self) -> Option<TraceId>
        ensures none { result ≡ None → self.now ≡ [] }
        ensures some { IfSome result (λ trace. BeginsWith trace self.now) }
    {
        match self.rows.front() {
            Some(row) => Some(row.span.trace),
            None => None,
        }
    }

    /// Takes the next row. None comes if there is none, and then only.
    pub fn next(&mut self) -> Result<Option<Row>, Memory>
        ensures { IfOk result (λ row. TakesFirst row self.old self.new) }
    {
        self.block.are_its_rows();
        if !wants_more(self.rows.len(), self.number) {
            return Ok(self.rows.pop_front());
        }
        let more = self.block.stripe(self.alloc, self.number)?;
        let mut rows = mem::replace(&mut self.rows, VecDeque::from_vec(more));
        self.number += 1;
        Ok(rows.pop_front())
    }
}

/// Whether the next stripe is to be read before a row is taken: where it is the last one of so many that are read, and
/// the block can have another stripe.
fn wants_more(rows: usize, number: usize) -> bool
    ensures last { result ≡ true → rows ≡ 1 }
    ensures within { result ≡ true → number < 4096 }
    ensures other { result ≡ false → rows ≡ 1 → 4096 ≤ number }
{
    rows == 1 && number < MOST_STRIPES
}
