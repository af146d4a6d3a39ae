//! Where bytes are malformed, and fields that say so.

ghost use Rattle.std.specs.Prelude.{◌≡◌, length, IfOk};
ghost use Rattle.byte_fields.specs.Reading.{byte_at, fixed64_at, raw_at, text_at, var_at, zigzag_at};
ghost use Rattle.span_fields.specs.declared.breaks.Break.TheVariants as breaks;
ghost use Rattle.span_fields.specs.Breaks.{break_of, Gives, in_part};

use byte_fields::{FieldError, Reader};
use span_types::{Memory, Text};
use std::alloc::{AllocError, AllocFailed};

/// Why bytes could not be read on.
#[derive(Clone, Copy, Debug, PartialEq, Eq)]
pub enum Break {
    /// Its bytes break the grammar at this place.
    At(u64),
    /// Out of memory.
    Memory,
}

impl From<AllocError> for Break {
    ghost from_gives = { λ _ e. e ≡ breaks.Memory };

    fn from(_error: AllocError) -> Break {
        Break::Memory
    }
}

impl From<Memory> for Break {
    ghost from_gives = { λ _ e. e ≡ breaks.Memory };

    fn from(_error: Memory) -> Break {
        Break::Memory
    }
}

impl<T: Drop> From<AllocFailed<T>> for Break {
    ghost from_gives = { λ _ e. e ≡ breaks.Memory };

    fn from(_error: AllocFailed<T>) -> Break {
        Break::Memory
    }
}

/// What a field's error is, where the field begins at `at`. A field that is too long for its part is at fault itself, where
/// the file goes on after the part; where it doesn't, the file is too short.
pub fn broken(error: FieldError, at: u64, within: bool) -> Break
    ensures { result ≡ break_of within at error }
{
    match error {
        FieldError::Short { at: end } => Break::At(if within { at } else { end }),
        FieldError::NotShortest { at } | FieldError::NotText { at } => Break::At(at),
        FieldError::Memory => Break::Memory,
    }
}

#[tactic(auto, unfolding(crate::specs::Breaks::in_part))]
pub fn raw<'a>(reader: &mut Reader<'a>, within: bool, count: u64) -> Result<&'a [u8], Break>
    ensures gives { Gives (λ x. x.now) result reader.new
        (in_part within (raw_at count) reader.old) }
    ensures count { IfOk result (λ x. length x.now ≡ count) }
{
    let at = reader.at();
    match reader.raw(count) {
        Ok(field) => Ok(field),
        Err(error) => Err(broken(error, at, within)),
    }
}

#[tactic(auto, unfolding(crate::specs::Breaks::in_part))]
pub fn byte(reader: &mut Reader, within: bool) -> Result<u8, Break>
    ensures gives { Gives (λ x. x) result reader.new (in_part within byte_at reader.old) }
    ensures whole { reader.new.whole ≡ reader.old.whole }
{
    let at = reader.at();
    match reader.byte() {
        Ok(field) => Ok(field),
        Err(error) => Err(broken(error, at, within)),
    }
}

#[tactic(auto, unfolding(crate::specs::Breaks::in_part))]
pub fn fixed64(reader: &mut Reader, within: bool) -> Result<u64, Break>
    ensures gives { Gives (λ x. x) result reader.new (in_part within fixed64_at reader.old) }
    ensures whole { reader.new.whole ≡ reader.old.whole }
{
    let at = reader.at();
    match reader.fixed64() {
        Ok(field) => Ok(field),
        Err(error) => Err(broken(error, at, within)),
    }
}

#[tactic(auto, unfolding(crate::specs::Breaks::in_part))]
pub fn var(reader: &mut Reader, within: bool) -> Result<u64, Break>
    ensures { Gives (λ x. x) result reader.new (in_part within var_at reader.old) }
{
    let at = reader.at();
    match reader.var() {
        Ok(field) => Ok(field),
        Err(error) => Err(broken(error, at, within)),
    }
}

#[tactic(auto, unfolding(crate::specs::Breaks::in_part))]
pub fn zigzag(reader: &mut Reader, within: bool) -> Result<i64, Break>
    ensures { Gives (λ x. x) result reader.new (in_part within zigzag_at reader.old) }
{
    let at = reader.at();
    match reader.zigzag() {
        Ok(field) => Ok(field),
        Err(error) => Err(broken(error, at, within)),
    }
}

#[tactic(auto, unfolding(crate::specs::Breaks::in_part))]
pub fn text(reader: &mut Reader, within: bool) -> Result<Text, Break>
    ensures { Gives (λ x. x) result reader.new (in_part within text_at reader.old) }
{
    let at = reader.at();
    match reader.text() {
        Ok(field) => Ok(field),
        Err(error) => Err(broken(error, at, within)),
    }
}
