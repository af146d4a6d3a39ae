//! Drawing from a generator's words.

ghost use Rattle.std.specs.Prelude.{◌≡◌, ◌<◌, IfSome, false};
ghost use Rattle.span_types.specs.Promises.{all_zero};
ghost use Rattle.drill_input.specs.Drill.{IsInRange, below, drawn_numbers, drawn_parent, drawn_trace, seeded, sixteen, trace_of, word};

use crate::span::{Drawn, span_number};
use rand_core::SeedableRng;
use rand_core::utils::NextWord;
use rand_xoshiro::Xoshiro256PlusPlus;
use span_types::{SpanId, SpanKind, StatusCode, TraceId};

/// The generator of a line.
#[tactic(auto, unfolding(crate::specs::Drill::seeded))]
pub(crate) fn seeded(seed: u64, index: u32) -> Xoshiro256PlusPlus
    ensures { result ≡ seeded seed index }
{
    Xoshiro256PlusPlus::seed_from_u64(seed.wrapping_add(u64::from(index)))
}

/// The next word.
#[tactic(auto, unfolding(crate::specs::Drill::word))]
fn word(words: &mut Xoshiro256PlusPlus) -> u64
    ensures { (result, words.new) ≡ word words.old }
{
    words.next_word()
}

/// The next word modulo a number.
#[tactic(auto, unfolding(crate::specs::Drill::below))]
pub(crate) fn below(words: &mut Xoshiro256PlusPlus, bound: u64) -> u64
    requires { 0 < bound }
    ensures is { (result, words.new) ≡ below bound words.old }
    ensures small { result < bound }
{
    word(words) % bound
}

/// The sixteen bytes of two words, high bytes first.
fn sixteen(first: u64, second: u64) -> [u8; 16]
    ensures { result ≡ sixteen first second }
{
    let mut bytes = [0; 16];
    bytes[..8].copy_from_slice(&first.to_be_bytes());
    bytes[8..].copy_from_slice(&second.to_be_bytes());
    bytes
}

fn all_zeros(bytes: &[u8]) -> bool
    ensures { result ≡ all_zero bytes.now }
{
    bytes.iter().all(|byte| *byte == 0)
}

/// The trace's id that two words are.
#[tactic(auto, unfolding(crate::specs::Drill::trace_of), using(crate::proofs::NameLemmas::trace_named))]
fn trace_of(first: u64, second: u64) -> TraceId
    ensures is { result ≡ trace_of first second }
    ensures named { all_zero result.0 ≡ false }
{
    let mut id = sixteen(first, second);
    if all_zeros(&id) {
        id[15] = 1;
    }
    TraceId(id)
}

/// The trace's id that the next two words are.
#[tactic(auto, unfolding(crate::specs::Drill::drawn_trace))]
pub(crate) fn draw_trace(words: &mut Xoshiro256PlusPlus) -> TraceId
    ensures is { (result, words.new) ≡ drawn_trace words.old }
    ensures named { all_zero result.0 ≡ false }
{
    let first = word(words);
    let second = word(words);
    trace_of(first, second)
}

/// The parent of span `j`: one of the spans before it, so none for the first.
#[tactic(auto, unfolding(crate::specs::Drill::drawn_parent))]
fn draw_parent(words: &mut Xoshiro256PlusPlus, j: u64) -> Option<SpanId>
    requires { j < 8 }
    ensures is { (result, words.new) ≡ drawn_parent j words.old }
    ensures named { IfSome result (λ p. all_zero p.0 ≡ false) }
{
    if j == 0 {
        return None;
    }
    Some(span_number(1 + below(words, j)))
}

/// The numbers of span `j`.
#[tactic(auto, unfolding(crate::specs::Drill::drawn_numbers))]
pub(crate) fn draw_numbers(words: &mut Xoshiro256PlusPlus, j: u64) -> Drawn
    requires { j < 8 }
    ensures is { (result, words.new) ≡ drawn_numbers j words.old }
    ensures in_range { IsInRange result }
{
    let parent = draw_parent(words, j);
    let name = below(words, 5);
    let kind = SpanKind::numbered(below(words, 6)).unwrap_or(SpanKind::Unspecified);
    let status = StatusCode::numbered(below(words, 3)).unwrap_or(StatusCode::Unset);
    let duration = below(words, 1_000_000);
    let code = below(words, 4);
    Drawn {
        parent,
        name,
        kind,
        status,
        duration,
        code,
    }
}
