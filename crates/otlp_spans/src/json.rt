//! Looking into a JSON value.

ghost use Rattle.std.specs.Prelude.{◌≡◌, ◌⊎◌, ◌∷◌, [], map, option_map, string_bytes, false, IfOk, None};
ghost use Rattle.std.specs.Str.{bytes_eq};
ghost use Rattle.serde_json.specs.Data.{object};
ghost use Rattle.serde_json.specs.Find.{as_array, as_object, as_str, get_member};
ghost use Rattle.serde_json.specs.View.{items_view, members_view, view};
ghost use Rattle.otlp_spans.specs.Attributes.{text_in};
ghost use Rattle.otlp_spans.specs.Forms.{Form, ListOf, NumberOrText, Text as AText, behind, first_in_field, first_in_items, first_wrong, found};
ghost use Rattle.otlp_spans.specs.Json.{list_of};
ghost use Rattle.otlp_spans.specs.Members.{member_name};
ghost use Rattle.otlp_spans.specs.Walk.{StopsAt, first_behind, items_from, text_from, unless_null};
ghost use Rattle.otlp_spans.specs.declared.errors.Stop.TheVariants.{Memory as NoMemory, Wrong};
ghost use Rattle.otlp_spans.specs.declared.paths.Step.TheVariants.{Of};

use crate::errors::Stop;
use crate::paths::{Member, Step};
use serde_json::{Map, Value};
use span_types::{Memory, Text};
use std::alloc::Global;

/// The member of an object, where it is there and isn't null.
pub(crate) fn found(value: &Value, member: Member) -> Option<&Value>
    ensures { option_map (λ v. view v.now) result ≡ found member (view value.now) }
{
    let found = value.get(member.name())?;
    if found.is_null() {
        return None;
    }
    Some(found)
}

/// The members of an object.
fn into_object(value: Value) -> Option<Map<String, Value>>
    ensures { option_map (λ m. members_view m.entries) result ≡ as_object (view value) }
{
    if let Value::Object(members) = value {
        Some(members)
    } else {
        None
    }
}

/// The items of a list, as serde_json has them.
fn into_array(value: Value) -> Option<Vec<Value>>
    ensures { option_map (λ v. items_view v.items) result ≡ as_array (view value) }
{
    if let Value::Array(items) = value {
        Some(items)
    } else {
        None
    }
}

/// The items, where the value is a list.
#[tactic(auto, using(crate::proofs::JsonLemmas::item_lists))]
fn into_list(value: Value) -> Option<Vec<Value>>
    ensures { option_map (λ l. map view l.items) result ≡ list_of (view value) }
{
    into_array(value)
}

/// The text, where the value is one.
fn into_string(value: Value) -> Option<String>
    ensures { option_map string_bytes result ≡ as_str (view value) }
{
    if let Value::String(text) = value {
        Some(text)
    } else {
        None
    }
}

/// The same, as a text.
pub(crate) fn into_text(value: Value) -> Option<Text>
    ensures { result ≡ as_str (view value) }
{
    Some(Text::of(into_string(value)?))
}

/// A value that isn't null.
fn not_null(found: Option<Value>) -> Option<Value>
    ensures { option_map view result ≡ unless_null (option_map view found) }
{
    let value = found?;
    if value.is_null() { None } else { Some(value) }
}

/// The member of an object, which it then has no more.
fn removed(members: &mut Map<String, Value>, member: Member) -> Option<Value>
    ensures value { option_map view result
        ≡ get_member (member_name member) (members_view members.old.entries) }
    ensures others { (other : Member) → bytes_eq (member_name other) (member_name member) ≡ false
        → get_member (member_name other) (members_view members.new.entries)
        ≡ get_member (member_name other) (members_view members.old.entries) }
{
    members.remove(member.name())
}

/// The member of an object, where it is there and isn't null. The object then has it no more.
pub(crate) fn taken(members: &mut Map<String, Value>, member: Member) -> Option<Value>
    ensures value { option_map view result
        ≡ found member (object (members_view members.old.entries)) }
    ensures others { (other : Member) → bytes_eq (member_name other) (member_name member) ≡ false
        → found other (object (members_view members.new.entries))
        ≡ found other (object (members_view members.old.entries)) }
{
    not_null(removed(members, member))
}

/// The members of a value: none where it is no object.
pub(crate) fn members_of(alloc: Global, value: Value) -> Map<String, Value>
    ensures { (member : Member)
        → found member (object (members_view result.entries)) ≡ found member (view value) }
{
    match into_object(value) {
        Some(members) => members,
        None => Map::new(alloc),
    }
}

/// A member of a value, where it is there and isn't null. The rest of the value is dropped.
pub(crate) fn take_one(alloc: Global, value: Value, member: Member) -> Option<Value>
    ensures { option_map view result ≡ found member (view value) }
{
    let mut members = members_of(alloc, value);
    taken(&mut members, member)
}

/// Two members, where they are there and aren't null.
#[derive(Drop)]
pub(crate) struct Two {
    pub(crate) first: Option<Value>,
    pub(crate) second: Option<Value>,
}

/// Two members of a value. The rest of it is dropped.
pub(crate) fn take_two(alloc: Global, value: Value, first: Member, second: Member) -> Two
    requires { bytes_eq (member_name second) (member_name first) ≡ false }
    ensures first { option_map view result.first ≡ found first (view value) }
    ensures second { option_map view result.second ≡ found second (view value) }
{
    let mut members = members_of(alloc, value);
    let one = taken(&mut members, first);
    let other = taken(&mut members, second);
    Two {
        first: one,
        second: other,
    }
}

/// A text of its own.
pub(crate) fn owned(alloc: Global, text: &str) -> Result<Text, Memory>
    ensures { IfOk result (λ t. t ≡ text.now) }
{
    Ok(Text::of(String::from_str(alloc, text)?))
}

/// The member itself has the wrong form.
pub(crate) fn wrong(alloc: Global, member: Member) -> Stop
    ensures { (result ≡ Wrong (Of member ∷ [])) ⊎ (result ≡ NoMemory) }
{
    Stop::here(alloc).behind(Step::Of(member))
}

/// The text that a member is; empty where it is absent.
pub(crate) fn text_in<'a>(alloc: Global, value: &'a Value, member: Member) -> Result<&'a str, Stop>
    ensures text { IfOk result (λ s. s.now ≡ text_in member (view value.now)) }
    ensures right { IfOk result (λ _. first_in_field member AText (view value.now) ≡ None) }
    ensures wrong { StopsAt result (first_in_field member AText (view value.now)) }
{
    let Some(found) = found(value, member) else {
        return Ok("");
    };
    match found.as_str() {
        Some(text) => Ok(text),
        None => Err(wrong(alloc, member)),
    }
}

/// The text that was found as a member; empty where it is absent.
pub(crate) fn text_from(alloc: Global, found: Option<Value>, member: Member) -> Result<Text, Stop>
    ensures text { IfOk result (λ t. t ≡ text_from (option_map view found)) }
    ensures right { IfOk result (λ _. first_behind member AText (option_map view found) ≡ None) }
    ensures wrong { StopsAt result (first_behind member AText (option_map view found)) }
{
    let Some(found) = found else {
        return Ok(Text::of(String::new(alloc)));
    };
    match into_text(found) {
        Some(text) => Ok(text),
        None => Err(wrong(alloc, member)),
    }
}

/// The text that was found as a member; empty where it is absent or no text.
pub(crate) fn text_or_empty(alloc: Global, found: Option<Value>) -> Text
    ensures { result ≡ text_from (option_map view found) }
{
    match found.and_then(into_text) {
        Some(text) => text,
        None => Text::of(String::new(alloc)),
    }
}

/// The list that was found as a member; without items where it is absent.
pub(crate) fn list_from(
    alloc: Global,
    found: Option<Value>,
    member: Member,
) -> Result<Vec<Value>, Stop>
    ensures list { IfOk result (λ l. map view l.items ≡ items_from (option_map view found)) }
    ensures right { IfOk result (λ l. (f : Form)
        → first_behind member (ListOf f) (option_map view found)
        ≡ behind (Of member) (first_in_items (first_wrong f) 0 (map view l.items))) }
    ensures wrong { (f : Form)
        → StopsAt result (first_behind member (ListOf f) (option_map view found)) }
{
    let Some(found) = found else {
        return Ok(Vec::new(alloc));
    };
    match into_list(found) {
        Some(items) => Ok(items),
        None => Err(wrong(alloc, member)),
    }
}

/// The number or text that a member is, where it is there.
pub(crate) fn number_or_text<'a>(
    alloc: Global,
    value: &'a Value,
    member: Member,
) -> Result<Option<&'a Value>, Stop>
    ensures found { IfOk result
        (λ o. option_map (λ v. view v.now) o ≡ found member (view value.now)) }
    ensures right { IfOk result (λ _. first_in_field member NumberOrText (view value.now) ≡ None) }
    ensures wrong { StopsAt result (first_in_field member NumberOrText (view value.now)) }
{
    match found(value, member) {
        Some(found) if !found.is_number() && !found.is_string() => Err(wrong(alloc, member)),
        found => Ok(found),
    }
}
