//! A list in bytes, ready to be written. All memory that its commit needs is taken here.

ghost use Rattle.std.specs.Prelude.{◌≡◌, ◌<◌, ◌≤◌, ◌+◌, ◌*◌, ◌^◌, ◌%◌, ◌++◌, ◌∷◌, [], length, vec_len, vec_capacity, IfOk};
ghost use Rattle.std.specs.List.{flat_map};
ghost use Rattle.byte_fields.specs.Spelling.{fixed32_bytes, fixed64_bytes};
ghost use Rattle.block_list.specs.Commit.{IsListText};
ghost use Rattle.block_list.specs.Body.{MeetsRules, segment_bytes, block_bytes, head_bytes, text_of};

use crate::{BlockRef, ListBody, SegmentRef};
use span_types::Memory;
use std::alloc::Global;
use std::marker::Model;

// A list doesn't name more files than there are numbers for.
const MOST_ENTRIES: usize = 4_294_967_295;

/// A list in bytes, as the slot of its generation gets it after the gate.
#[derive(Drop)]
pub struct PreparedList {
    generation: u8,
    text: Vec<u8>,
}

impl Model for PreparedList {
    ghost use Rattle.std.specs.Prelude.{vec_capacity};
    ghost use Rattle.block_list.specs.ListText.{ListText};

    ghost Value = { ListText };

    ghost view = { λ list. record { generation = list.generation; text = list.text.items; room = vec_capacity list.text } };
}

/// A body in bytes.
#[tactic(auto, using(crate::proofs::BodyLemmas::few_segments, crate::proofs::BodyLemmas::few_blocks, crate::proofs::BodyLemmas::few_loose))]
pub fn prepare(alloc: Global, body: &ListBody) -> Result<PreparedList, Memory>
    requires { MeetsRules body.now }
    ensures text { IfOk result (λ list. IsListText list body.now) }
    ensures room { IfOk result (λ list. length list.text ≤ list.room) }
{
    let mut text = Vec::with_capacity(alloc, size_of(body))?;
    fill(&mut text, body);
    Ok(PreparedList {
        generation: body.generation,
        text,
    })
}

/// A body in bytes, where it isn't known whether it meets the rules. One with more entries of a kind than there are
/// numbers of files is refused for memory.
pub fn prepare_any(alloc: Global, body: &ListBody) -> Result<PreparedList, Memory>
    ensures text { MeetsRules body.now → IfOk result (λ list. IsListText list body.now) }
    // The text is short, whatever the body.
    ensures short { IfOk result (λ list. 1 + length list.text < 2 ^ 63) }
{
    let (segments, blocks, loose) = (body.segments.len(), body.blocks.len(), body.loose.len());
    if segments > MOST_ENTRIES || blocks > MOST_ENTRIES || loose > MOST_ENTRIES {
        return Err(Memory);
    }
    let mut text = Vec::with_capacity(alloc, size_of(body))?;
    fill(&mut text, body);
    Ok(PreparedList {
        generation: body.generation,
        text,
    })
}

impl PreparedList {
    /// One that has no body yet, with room for one of so many bytes after the gate.
    pub fn with_room(alloc: Global, bytes: usize) -> Result<PreparedList, Memory>
        ensures { IfOk result (λ list. bytes ≤ list.room) }
    {
        let text = Vec::with_capacity(alloc, bytes)?;
        Ok(PreparedList {
            generation: 0,
            text,
        })
    }

    /// Another body, in the room of this one. It takes no memory.
    #[tactic(auto, using(crate::proofs::BodyLemmas::few_segments, crate::proofs::BodyLemmas::few_blocks, crate::proofs::BodyLemmas::few_loose))]
    pub fn refill(&mut self, body: &ListBody)
        requires rules { MeetsRules body.now }
        requires room { length (text_of body.now) ≤ self.old.room }
        ensures text { IsListText self.new body.now }
        ensures room { self.old.room ≤ self.new.room }
    {
        self.text.clear();
        fill(&mut self.text, body);
        self.generation = body.generation;
    }

    /// The slot that the list goes to.
    pub fn slot(&self) -> u32
        ensures { result ≡ self.now.generation % 2 }
    {
        u32::from(self.generation % 2)
    }

    /// The bytes after the gate.
    pub fn text(&self) -> &[u8]
        ensures { result.now ≡ self.now.text }
    {
        &self.text
    }
}

/// How many bytes a body takes after the gate.
fn size_of(body: &ListBody) -> usize
    requires segments { length body.now.segments < 2 ^ 32 }
    requires blocks { length body.now.blocks < 2 ^ 32 }
    requires loose { length body.now.loose < 2 ^ 32 }
    ensures { result ≡ length (text_of body.now) }
{
    29 + 12 * body.segments.len() + 9 * body.blocks.len() + 4 * body.loose.len()
}

/// Adds the bytes of a body. There is room for them.
fn fill(text: &mut Vec<u8>, body: &ListBody)
    requires segments { length body.now.segments < 2 ^ 32 }
    requires blocks { length body.now.blocks < 2 ^ 32 }
    requires loose { length body.now.loose < 2 ^ 32 }
    requires room { vec_len text.old + length (text_of body.now) ≤ vec_capacity text.old }
    ensures text { text.new.items ≡ text.old.items ++ text_of body.now }
    ensures room { vec_capacity text.old ≤ vec_capacity text.new }
{
    fill_head(text, body);
    fill_segments(text, body.segments.as_slice());
    fill_blocks(text, body.blocks.as_slice());
    fill_files(text, body.loose.as_slice());
}

/// Adds the fixed fields of a body.
fn fill_head(text: &mut Vec<u8>, body: &ListBody)
    requires segments { length body.now.segments < 2 ^ 32 }
    requires blocks { length body.now.blocks < 2 ^ 32 }
    requires loose { length body.now.loose < 2 ^ 32 }
    requires room { vec_len text.old + 29 ≤ vec_capacity text.old }
    ensures text { text.new.items ≡ text.old.items ++ head_bytes body.now }
    ensures len { vec_len text.new ≡ vec_len text.old + 29 }
    ensures room { vec_capacity text.old ≤ vec_capacity text.new }
{
    put(text, b"TSL1");
    put(text, &[body.generation]);
    put32(text, body.next_file);
    put64(text, body.floor);
    put32(text, body.segments.len() as u32);
    put32(text, body.blocks.len() as u32);
    put32(text, body.loose.len() as u32);
}

fn fill_segments(text: &mut Vec<u8>, segments: &[SegmentRef])
    requires { vec_len text.old + 12 * length segments.now ≤ vec_capacity text.old }
    ensures text { text.new.items ≡ text.old.items ++ flat_map segment_bytes segments.now }
    ensures len { vec_len text.new ≡ vec_len text.old + 12 * length segments.now }
    ensures room { vec_capacity text.old ≤ vec_capacity text.new }
{
    for segment in segments {
        put_segment(text, segment);
    }
}

fn put_segment(text: &mut Vec<u8>, segment: &SegmentRef)
    requires { vec_len text.old + 12 ≤ vec_capacity text.old }
    ensures text { text.new.items ≡ text.old.items ++ segment_bytes segment.now }
    ensures len { vec_len text.new ≡ vec_len text.old + 12 }
    ensures room { vec_capacity text.old ≤ vec_capacity text.new }
{
    put32(text, segment.file);
    put64(text, segment.first);
}

fn fill_blocks(text: &mut Vec<u8>, blocks: &[BlockRef])
    requires { vec_len text.old + 9 * length blocks.now ≤ vec_capacity text.old }
    ensures text { text.new.items ≡ text.old.items ++ flat_map block_bytes blocks.now }
    ensures len { vec_len text.new ≡ vec_len text.old + 9 * length blocks.now }
    ensures room { vec_capacity text.old ≤ vec_capacity text.new }
{
    for block in blocks {
        put_block(text, block);
    }
}

fn put_block(text: &mut Vec<u8>, block: &BlockRef)
    requires { vec_len text.old + 9 ≤ vec_capacity text.old }
    ensures text { text.new.items ≡ text.old.items ++ block_bytes block.now }
    ensures len { vec_len text.new ≡ vec_len text.old + 9 }
    ensures room { vec_capacity text.old ≤ vec_capacity text.new }
{
    put32(text, block.file);
    put(text, &[block.level]);
    put32(text, block.rows);
}

fn fill_files(text: &mut Vec<u8>, files: &[u32])
    requires { vec_len text.old + 4 * length files.now ≤ vec_capacity text.old }
    ensures text { text.new.items ≡ text.old.items ++ flat_map fixed32_bytes files.now }
    ensures len { vec_len text.new ≡ vec_len text.old + 4 * length files.now }
    ensures room { vec_capacity text.old ≤ vec_capacity text.new }
{
    for file in files {
        put32(text, *file);
    }
}

/// Adds a number of four bytes, little-endian.
fn put32(text: &mut Vec<u8>, number: u32)
    requires { vec_len text.old + 4 ≤ vec_capacity text.old }
    ensures text { text.new.items ≡ text.old.items ++ fixed32_bytes number }
    ensures len { vec_len text.new ≡ vec_len text.old + 4 }
    ensures room { vec_capacity text.old ≤ vec_capacity text.new }
{
    put(text, &number.to_le_bytes());
}

/// Adds a number of eight bytes, little-endian.
fn put64(text: &mut Vec<u8>, number: u64)
    requires { vec_len text.old + 8 ≤ vec_capacity text.old }
    ensures text { text.new.items ≡ text.old.items ++ fixed64_bytes number }
    ensures len { vec_len text.new ≡ vec_len text.old + 8 }
    ensures room { vec_capacity text.old ≤ vec_capacity text.new }
{
    put(text, &number.to_le_bytes());
}

/// Adds bytes that there is room for.
fn put(text: &mut Vec<u8>, bytes: &[u8])
    requires { vec_len text.old + length bytes.now ≤ vec_capacity text.old }
    ensures text { text.new.items ≡ text.old.items ++ bytes.now }
    ensures len { vec_len text.new ≡ vec_len text.old + length bytes.now }
    ensures room { vec_capacity text.old ≤ vec_capacity text.new }
{
    match text.extend_from_slice(bytes) {
        Ok(()) => {}
        Err(_) => unreachable!(),
    }
}
