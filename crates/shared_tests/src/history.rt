//! The one history of two seats' pushes, made from the numbers that each was told, and what looks show of it.

use crate::found::Found;
use crate::spans::{Batches, key, name_at};
use crate::steps::{Log, Said};
use span_types::{Key, Memory, Place};
use std::alloc::Global;
use std::collections::BTreeMap;

// A push: what its seat pushes, and how many pushes that one had made before.
pub(crate) type Pushed = (Batches, u16);

// Notes whose push has the number. False where it is another one's already, or none that may be given.
fn note(history: &mut [Option<Pushed>], number: u64, push: Pushed) -> bool {
    match history.get_mut(number as usize) {
        Some(place) if place.is_none() => {
            *place = Some(push);
            true
        }
        _ => false,
    }
}

// Notes the numbers of a seat's pushes. False where one can't be.
fn note_all(history: &mut [Option<Pushed>], log: &Log, batches: Batches) -> bool {
    let mut right = log.whole;
    let mut before = 0u16;
    for said in log.said.as_slice() {
        if let Said::Number(number) = said {
            right &= note(history, *number, (batches, before));
            before = before.wrapping_add(1);
        }
    }
    right
}

// How many pushes of a seat were acknowledged.
pub(crate) fn acknowledged(log: &Log) -> usize {
    let mut count = 0usize;
    for said in log.said.as_slice() {
        if let Said::Number(_) = said {
            count = count.saturating_add(1);
        }
    }
    count
}

// The history of two seats' pushes. None where the numbers aren't those from 0 on, each once.
pub(crate) fn history_of(
    alloc: Global,
    one: (&Log, Batches),
    other: (&Log, Batches),
) -> Option<Vec<Option<Pushed>>> {
    let count = acknowledged(one.0).saturating_add(acknowledged(other.0));
    let mut history = vec![in alloc; None; count].ok()?;
    let first = note_all(&mut history, one.0, one.1);
    let second = note_all(&mut history, other.0, other.1);
    (first && second).then_some(history)
}

// Where the first occurrences of a history stand, and how many there are among its first entries, of each count.
#[derive(Drop)]
pub(crate) struct Firsts {
    places: BTreeMap<Key, Place>,
    counts: Vec<usize>,
}

fn add_first(places: &mut BTreeMap<Key, Place>, key: Key, place: Place) -> Result<(), Memory> {
    if !places.contains_key(&key) {
        places.insert(key, place)?;
    }
    Ok(())
}

fn add_push(
    places: &mut BTreeMap<Key, Place>,
    number: u64,
    push: Option<Pushed>,
) -> Result<(), Memory> {
    let Some((batches, before)) = push else {
        return Ok(());
    };
    for position in 0..2 {
        if let Some(name) = name_at(batches, before, position) {
            add_first(places, key(name), Place { number, position })?;
        }
    }
    Ok(())
}

pub(crate) fn firsts_of(alloc: Global, history: &[Option<Pushed>]) -> Result<Firsts, Memory> {
    let mut places = BTreeMap::new(alloc);
    let mut counts = Vec::new(alloc);
    counts.push(0)?;
    for (number, push) in (0u64..).zip(history) {
        add_push(&mut places, number, *push)?;
        counts.push(places.len())?;
    }
    Ok(Firsts { places, counts })
}

// Whether a look shows just the first occurrences of the history at its length.
pub(crate) fn shows(firsts: &Firsts, look: &Found) -> bool {
    let mut same = firsts.counts.get(look.as_of as usize) == Some(&look.rows.len());
    for row in look.rows.as_slice() {
        same &= row.place.number < look.as_of;
        same &= firsts.places.get(&row.span.key()) == Some(&row.place);
    }
    same
}

// Whether each look of a seat does.
pub(crate) fn all_show(firsts: &Firsts, log: &Log) -> bool {
    let mut right = true;
    for look in log.looks.as_slice() {
        right &= shows(firsts, look);
    }
    right
}

// Whether each look of a seat stands between the seat's pushes before and after it.
pub(crate) fn goes_on(log: &Log) -> bool {
    let mut right = true;
    let mut least = 0;
    for said in log.said.as_slice() {
        match said {
            Said::Number(number) => {
                right &= least <= *number;
                least = number.saturating_add(1);
            }
            Said::Shown(as_of) => {
                right &= least <= *as_of;
                least = *as_of;
            }
            _ => {}
        }
    }
    right
}
