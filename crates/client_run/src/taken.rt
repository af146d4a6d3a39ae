//! The looks that a run of events has taken: which are open, and which blocks their pins name.

ghost use Rattle.std.specs.Prelude.{◌≡◌, ◌==◌, Some, None, map, option_map, if◌then◌else◌, IfSome, IfNone, true};
ghost use Rattle.std.specs.List.{list_any};
ghost use Rattle.store_model.specs.Event.Event.{Done};
ghost use Rattle.store_model.specs.Event.Reply.{Fine};
ghost use Rattle.store_model.specs.State.{is_among};
ghost use Rattle.store_state.specs.Given.{info_files, look_of};
ghost use Rattle.store_state.specs.Made.{call};
ghost use Rattle.client_run.specs.Calls.{look_at, unless_ended};
ghost use Rattle.client_run.specs.Taken.{NamesNo, looks_of};

use span_types::Memory;
use store_state::{Look, Pin};

// The look with this number, if it is open. It is open no more, and neither is another one under its pin.
pub(crate) fn end_look(looks: &mut Vec<Option<Look>>, number: u64) -> Option<Look>
    ensures closed { IfNone result ((look_at number (looks_of looks.old.items) ≡ None)
        × (looks_of looks.new.items ≡ looks_of looks.old.items)) }
    ensures open { IfSome result
        (λ look. look_at number (looks_of looks.old.items) ≡ Some (look_of look)) }
    ensures ended { IfSome result (λ look. looks_of looks.new.items
        ≡ map (unless_ended (call (Done look.pin.number) Fine)) (looks_of looks.old.items)) }
{
    if number >= looks.len() as u64 {
        return None;
    }
    let Some(look) = looks[number as usize].take() else {
        return None;
    };
    end_pin(looks, look.pin.number);
    Some(look)
}

// No look under this pin is open any more.
fn end_pin(looks: &mut Vec<Option<Look>>, pin: u64)
    ensures { looks_of looks.new.items
        ≡ map (unless_ended (call (Done pin) Fine)) (looks_of looks.old.items) }
{
    for at in 0..looks.len() {
        end_one(&mut looks[at], pin);
    }
}

// The look is open no more, if it is under this pin.
fn end_one(look: &mut Option<Look>, pin: u64)
    ensures { option_map look_of look.new
        ≡ unless_ended (call (Done pin) Fine) (option_map look_of look.old) }
{
    if is_under(look, pin) {
        *look = None;
    }
}

fn is_under(look: &Option<Look>, pin: u64) -> bool
    ensures { unless_ended (call (Done pin) Fine) (option_map look_of look.now)
        ≡ (if result then None else option_map look_of look.now) }
{
    match look {
        Some(look) => look.pin.number == pin,
        None => false,
    }
}

// The look with this number, if it is open and its pin names the block.
pub(crate) fn look_with(looks: &[Option<Look>], number: u64, block: u32) -> Option<&Look>
    ensures none { IfNone result (NamesNo (look_at number (looks_of looks.now)) block) }
    ensures open { IfSome result
        (λ look. look_at number (looks_of looks.now) ≡ Some (look_of look.now)) }
    ensures named { IfSome result (λ look. is_among block (info_files look.now.pin.blocks) ≡ true) }
{
    let look = open_look(looks, number)?;
    if names(&look.pin, block) {
        Some(look)
    } else {
        None
    }
}

// The look with this number, if it is open.
fn open_look(looks: &[Option<Look>], number: u64) -> Option<&Look>
    ensures none { IfNone result (look_at number (looks_of looks.now) ≡ None) }
    ensures open { IfSome result
        (λ look. look_at number (looks_of looks.now) ≡ Some (look_of look.now)) }
{
    if number >= looks.len() as u64 {
        return None;
    }
    looks[number as usize].as_ref()
}

// Whether a pin names a block.
fn names(pin: &Pin, block: u32) -> bool
    ensures { result ≡ list_any (λ info. info.file == block) pin.now.blocks }
{
    let infos = pin.blocks.as_slice();
    infos.iter().any(|info| info.get().file == block)
}
