//! Reading lists of attributes.

ghost use Rattle.std.specs.Prelude.{◌≡◌, ◌++◌, ◌∷◌, [], not, option_map, string_bytes, IfOk, IfErr, OnOk, List, None};
ghost use Rattle.std.specs.List.{filter};
ghost use Rattle.std.specs.Option.{is_some};
ghost use Rattle.serde_json.specs.Data.{Data, member, no_members, object};
ghost use Rattle.serde_json.specs.View.{view};
ghost use Rattle.span_types.specs.declared.attrs.Attr.{Attr};
ghost use Rattle.span_types.specs.Promises.{has_key};
ghost use Rattle.otlp_spans.specs.Attributes.{attr_of, attrs_in, firsts_behind, nothing, only, skipped_attrs, value_by, value_of};
ghost use Rattle.otlp_spans.specs.Forms.{attribute_form, attributes_form, found as found_in};
ghost use Rattle.otlp_spans.specs.Keys.{HasKeysOf, are_first, value_named};
ghost use Rattle.otlp_spans.specs.Walk.{Adds, StopsAt, first_behind, kept_value};
ghost use Rattle.otlp_spans.specs.declared.paths.Member.TheVariants as m;

use crate::errors::Stop;
use crate::fields::int;
use crate::json::{found, into_text, owned, take_two, text_from};
use crate::lists::{Item, ListItem, kept_from};
use crate::paths::Member;
use serde_json::{Map, Value};
use span_types::{Attr, AttrValue, Attrs, Memory};
use std::alloc::Global;
use std::collections::BTreeSet;

/// The members of which an attribute's value has exactly one.
const VALUE_MEMBERS: [Member; 7] = [
    Member::StringValue,
    Member::BoolValue,
    Member::IntValue,
    Member::DoubleValue,
    Member::ArrayValue,
    Member::KvlistValue,
    Member::BytesValue,
];

/// What a value is by its one member: a text, a truth or a whole number. The other four aren't kept.
fn value_by(alloc: Global, member: Member, value: &Value) -> Result<Option<AttrValue>, Memory>
    ensures { IfOk result (λ v. v ≡ value_by member (view value.now)) }
{
    match member {
        Member::StringValue => match value.as_str() {
            Some(text) => Ok(Some(AttrValue::Text(owned(alloc, text)?))),
            None => Ok(None),
        },
        Member::BoolValue => Ok(value.as_bool().map(AttrValue::Truth)),
        Member::IntValue => Ok(int(value).map(AttrValue::Whole)),
        _ => Ok(None),
    }
}

/// The one of these members that a value has.
fn one_of(value: &Value, members: &[Member]) -> Option<Member>
    ensures { result ≡ only (filter (λ k. is_some (found_in k (view value.now))) members.now) }
{
    let mut one = None;
    for member in members {
        if found(value, *member).is_none() {
            continue;
        }
        if one.is_some() {
            return None;
        }
        one = Some(*member);
    }
    one
}

/// The one member of an object.
fn only_member(members: Map<String, Value>) -> Result<(String, Value), Map<String, Value>>
    ensures one { IfOk result (λ m. members.entries ≡ m ∷ []) }
    ensures more { IfErr result (λ others. others ≡ members) }
{
    if members.len() != 1 {
        return Err(members);
    }
    let mut members = members;
    match members.pop_first() {
        Some(member) => Ok(member),
        None => Err(members),
    }
}

/// The member of a value that is an object and has no other.
fn alone(value: Value) -> Result<(String, Value), Value>
    ensures one { IfOk result
        (λ m. view value ≡ object (member (string_bytes m.0) (view m.1) no_members)) }
    ensures more { IfErr result (λ same. same ≡ value) }
{
    match value {
        Value::Object(members) => match only_member(members) {
            Ok(member) => Ok(member),
            Err(members) => Err(Value::Object(members)),
        },
        other => Err(other),
    }
}

/// What a value is by its one member, which has this name.
fn value_named(name: &str, value: Value) -> Option<AttrValue>
    ensures { result ≡ value_named name.now (view value) }
{
    match name {
        "stringValue" => into_text(value).map(AttrValue::Text),
        "boolValue" => value.as_bool().map(AttrValue::Truth),
        "intValue" => int(&value).map(AttrValue::Whole),
        _ => None,
    }
}

/// What a value is, where each of the seven names is looked for.
#[tactic(auto, unfolding(crate::specs::Attributes::value_of))]
fn value_by_names(alloc: Global, value: &Value) -> Result<Option<AttrValue>, Memory>
    ensures { IfOk result (λ v. v ≡ value_of (view value.now)) }
{
    let Some(member) = one_of(value, &VALUE_MEMBERS) else {
        return Ok(None);
    };
    match found(value, member) {
        Some(found) => value_by(alloc, member, found),
        None => Ok(None),
    }
}

/// What a value is, where it is kept. Mostly it has one member; else each name is looked for.
fn value_of(alloc: Global, value: Value) -> Result<Option<AttrValue>, Memory>
    ensures { IfOk result (λ v. v ≡ value_of (view value)) }
{
    match alone(value) {
        Ok((name, only)) => Ok(value_named(name.as_str(), only)),
        Err(value) => value_by_names(alloc, &value),
    }
}

/// An attribute's value that was found, where it is kept.
fn value_from(alloc: Global, found: Option<Value>) -> Result<Option<AttrValue>, Memory>
    ensures { IfOk result (λ v. v ≡ kept_value (option_map view found)) }
{
    match found {
        Some(value) => value_of(alloc, value),
        None => Ok(None),
    }
}

impl ListItem for Attr {
    ghost form = { attribute_form };

    ghost of = { attr_of };

    ghost inside = { nothing };

    #[tactic(auto, unfolding(crate::specs::Attributes::attr_of))]
    fn read(alloc: Global, value: Value) -> Result<Item<Attr>, Stop> {
        if !value.is_object() {
            return Err(Stop::here(alloc));
        }
        let parts = take_two(alloc, value, Member::Key, Member::Value);
        let key = text_from(alloc, parts.first, Member::Key)?;
        let Some(value) = value_from(alloc, parts.second)? else {
            return Ok(Item {
                kept: None,
                skipped: 1,
            });
        };
        Ok(Item {
            kept: Some(Attr { key, value }),
            skipped: 0,
        })
    }
}

/// Up to this number of attributes each is compared with those before it.
const FEW: usize = 16;

/// Whether one of the attributes has the key.
fn has_key(attrs: &[Attr], key: &str) -> bool
    ensures { result ≡ has_key key.now attrs.now }
{
    attrs.iter().any(|attr| attr.key.as_str() == key)
}

/// Of each key the first attribute, where there are few.
fn few_firsts(attrs: Vec<Attr>) -> Vec<Attr>
    ensures { result.items ≡ firsts_behind [] attrs.items }
{
    let mut firsts = attrs;
    let mut kept = 0;
    while kept < firsts.len() {
        if has_key(&firsts[..kept], firsts[kept].key.as_str()) {
            firsts.remove(kept);
            continue;
        }
        kept += 1;
    }
    firsts
}

/// Whether no attribute before has the key. Then it is one of their keys.
fn is_new<'a>(keys: &mut BTreeSet<&'a str>, key: &'a str) -> Result<bool, Memory>
    ensures new_key { IfOk result (λ new. (before : List Attr) → HasKeysOf keys.old before
        → new ≡ not (has_key key.now before)) }
    ensures kept { OnOk result ((before : List Attr) (attr : Attr) → HasKeysOf keys.old before
        → attr.key ≡ key.now → HasKeysOf keys.new (before ++ attr ∷ [])) }
{
    match keys.insert(key) {
        Ok(new) => Ok(new),
        Err(_) => Err(Memory),
    }
}

/// Of each attribute whether it is the first of its key. The keys are kept in order, since they may be chosen so that a
/// hash tells none of them from another.
fn are_first(alloc: Global, attrs: &[Attr]) -> Result<Vec<bool>, Memory>
    ensures { IfOk result (λ marks. marks.items ≡ are_first [] attrs.now) }
{
    let mut keys = BTreeSet::new(alloc);
    let mut marks = Vec::with_capacity(alloc, attrs.len())?;
    for attr in attrs {
        marks.push(is_new(&mut keys, attr.key.as_str())?)?;
    }
    Ok(marks)
}

/// Of each key the first attribute, however many there are.
fn many_firsts(alloc: Global, attrs: Vec<Attr>) -> Result<Vec<Attr>, Memory>
    ensures { IfOk result (λ v. v.items ≡ firsts_behind [] attrs.items) }
{
    let mut marks = are_first(alloc, attrs.as_slice())?.into_iter();
    let mut kept = Vec::new(alloc);
    for attr in attrs {
        if marks.next() == Some(true) {
            kept.push(attr)?;
        }
    }
    Ok(kept)
}

/// Of each key the first attribute.
fn firsts(alloc: Global, attrs: Vec<Attr>) -> Result<Vec<Attr>, Memory>
    ensures { IfOk result (λ v. v.items ≡ firsts_behind [] attrs.items) }
{
    if attrs.len() <= FEW {
        Ok(few_firsts(attrs))
    } else {
        many_firsts(alloc, attrs)
    }
}

/// The attributes of an object, and how many of them were skipped, at most 2^64 - 1.
#[derive(Drop)]
pub(crate) struct Attributes {
    /// The attributes: of those that are kept the first of each key.
    pub(crate) attrs: Attrs,
    /// How many aren't kept.
    pub(crate) skipped: u64,
}

/// The attributes of an object, of which they were found.
#[tactic(auto, unfolding(crate::specs::Attributes::attrs_in, crate::specs::Attributes::skipped_attrs))]
pub(crate) fn attributes_from(alloc: Global, found: Option<Value>) -> Result<Attributes, Stop>
    ensures attrs { IfOk result (λ a. (d : Data) → option_map view found ≡ found_in m.Attributes d
        → a.attrs ≡ attrs_in d) }
    ensures skipped { IfOk result (λ a. (d : Data) → option_map view found ≡ found_in m.Attributes d
        → Adds 0 a.skipped (skipped_attrs d)) }
    ensures right { IfOk result
        (λ _. first_behind m.Attributes attributes_form (option_map view found) ≡ None) }
    ensures wrong { StopsAt result
        (first_behind m.Attributes attributes_form (option_map view found)) }
{
    let kept = kept_from::<Attr>(alloc, found, Member::Attributes)?;
    Ok(Attributes {
        attrs: Attrs::of(firsts(alloc, kept.items)?),
        skipped: kept.skipped,
    })
}
