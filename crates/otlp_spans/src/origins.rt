//! Reading resources and scopes.

ghost use Rattle.std.specs.Prelude.{◌≡◌, option_map, IfOk, None, Some};
ghost use Rattle.serde_json.specs.View.{view};
ghost use Rattle.otlp_spans.specs.Forms.{first_wrong, resource_form, scope_form};
ghost use Rattle.otlp_spans.specs.Reading.{resource_from, scope_from, skipped_from};
ghost use Rattle.otlp_spans.specs.Walk.{Adds, StopsAt, first_behind};
ghost use Rattle.otlp_spans.specs.declared.paths.Member.TheVariants as m;

use crate::attributes::attributes_from;
use crate::errors::Stop;
use crate::json::{owned, take_one, text_in};
use crate::paths::{Member, Step};
use serde_json::Value;
use span_runs::Origin;
use span_types::{Attrs, Resource, Scope, Text};
use std::alloc::Global;

/// A resource or a scope, and how many of its attributes were skipped, at most 2^64 - 1.
#[derive(Drop)]
pub(crate) struct OriginRead<O> {
    pub(crate) origin: O,
    pub(crate) skipped: u64,
}

/// A resource or a scope as a member of an object.
pub(crate) trait OriginMember: Origin {
    ghost use Rattle.std.specs.Prelude.{Option};
    ghost use Rattle.serde_json.specs.Data.{Data};
    ghost use Rattle.otlp_spans.specs.Forms.{Form};
    ghost use Rattle.otlp_spans.specs.declared.paths.Member.{Member};

    ghost MEMBER: { Member };

    ghost form: { Form };

    ghost from: { Option Data → Self };

    /// The member that it is.
    const MEMBER: Member;

    /// One of which nothing is said.
    fn absent(alloc: Global) -> Self
        ensures { result ≡ from None };

    /// The one that a value is.
    fn read(alloc: Global, value: Value) -> Result<OriginRead<Self>, Stop>
        ensures origin { IfOk result (λ r. r.origin ≡ from (Some (view value))) }
        ensures skipped { IfOk result (λ r. Adds 0 r.skipped (skipped_from (Some (view value)))) }
        ensures right { IfOk result (λ _. first_wrong form (view value) ≡ None) }
        ensures wrong { StopsAt result (first_wrong form (view value)) };
}

impl OriginMember for Resource {
    ghost MEMBER = { m.Resource };

    ghost form = { resource_form };

    ghost from = { resource_from };

    const MEMBER: Member = Member::Resource;

    fn absent(alloc: Global) -> Resource {
        Resource {
            attrs: Attrs::none(alloc),
        }
    }

    fn read(alloc: Global, value: Value) -> Result<OriginRead<Resource>, Stop> {
        if !value.is_object() {
            return Err(Stop::here(alloc));
        }
        let attributes = attributes_from(alloc, take_one(alloc, value, Member::Attributes))?;
        let origin = Resource {
            attrs: attributes.attrs,
        };
        Ok(OriginRead {
            origin,
            skipped: attributes.skipped,
        })
    }
}

impl OriginMember for Scope {
    ghost MEMBER = { m.Scope };

    ghost form = { scope_form };

    ghost from = { scope_from };

    const MEMBER: Member = Member::Scope;

    fn absent(alloc: Global) -> Scope {
        Scope {
            name: Text::of(String::new(alloc)),
            version: Text::of(String::new(alloc)),
            attrs: Attrs::none(alloc),
        }
    }

    fn read(alloc: Global, value: Value) -> Result<OriginRead<Scope>, Stop> {
        if !value.is_object() {
            return Err(Stop::here(alloc));
        }
        let name = text_in(alloc, &value, Member::Name)?;
        let name = owned(alloc, name)?;
        let version = text_in(alloc, &value, Member::Version)?;
        let version = owned(alloc, version)?;
        let attributes = attributes_from(alloc, take_one(alloc, value, Member::Attributes))?;
        let origin = Scope {
            name,
            version,
            attrs: attributes.attrs,
        };
        Ok(OriginRead {
            origin,
            skipped: attributes.skipped,
        })
    }
}

/// The one that was found as a member: one of which nothing is said where the member is absent.
pub(crate) fn origin_from<O: OriginMember>(
    alloc: Global,
    found: Option<Value>,
) -> Result<OriginRead<O>, Stop>
    ensures origin { IfOk result (λ r. r.origin ≡ O.from (option_map view found)) }
    ensures skipped { IfOk result
        (λ r. Adds 0 r.skipped (skipped_from (option_map view found))) }
    ensures right { IfOk result (λ _. first_behind O.MEMBER O.form (option_map view found) ≡ None) }
    ensures wrong { StopsAt result (first_behind O.MEMBER O.form (option_map view found)) }
{
    let Some(found) = found else {
        return Ok(OriginRead {
            origin: O::absent(alloc),
            skipped: 0,
        });
    };
    match O::read(alloc, found) {
        Ok(read) => Ok(read),
        Err(stop) => Err(stop.behind(Step::Of(O::MEMBER))),
    }
}
