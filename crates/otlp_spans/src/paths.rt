//! The members of OTLP/JSON that are looked at, and the paths at which a line has the wrong form.

ghost use Rattle.std.specs.Prelude.{◌≡◌, ◌∷◌, ◌++◌, [], IfOk, OnOk, string_bytes};
ghost use Rattle.otlp_spans.specs.Forms.{path_text, step_text};
ghost use Rattle.otlp_spans.specs.Members.{member_name};

use span_types::{Memory, Text};
use std::alloc::Global;
use std::marker::Model;

/// A member of an object, in the order in which members of one object are tested.
#[derive(Clone, Copy, Debug)]
pub enum Member {
    /// `resourceSpans`
    ResourceSpans,
    /// `resource`
    Resource,
    /// `scopeSpans`
    ScopeSpans,
    /// `scope`
    Scope,
    /// `spans`
    Spans,
    /// `traceId`
    TraceId,
    /// `spanId`
    SpanId,
    /// `parentSpanId`
    ParentSpanId,
    /// `startTimeUnixNano`
    StartTime,
    /// `endTimeUnixNano`
    EndTime,
    /// `timeUnixNano`
    TimeUnixNano,
    /// `name`
    Name,
    /// `version`
    Version,
    /// `kind`
    Kind,
    /// `status`
    Status,
    /// `message`
    Message,
    /// `code`
    Code,
    /// `attributes`
    Attributes,
    /// `events`
    Events,
    /// `links`
    Links,
    /// `key`
    Key,
    /// `value`
    Value,
    /// `stringValue`
    StringValue,
    /// `boolValue`
    BoolValue,
    /// `intValue`
    IntValue,
    /// `doubleValue`
    DoubleValue,
    /// `arrayValue`
    ArrayValue,
    /// `kvlistValue`
    KvlistValue,
    /// `bytesValue`
    BytesValue,
}

impl Member {
    /// Its name in OTLP/JSON.
    pub fn name(self) -> &'static str
        ensures { result.now ≡ member_name self }
    {
        match self {
            Member::ResourceSpans => "resourceSpans",
            Member::Resource => "resource",
            Member::ScopeSpans => "scopeSpans",
            Member::Scope => "scope",
            Member::Spans => "spans",
            Member::TraceId => "traceId",
            Member::SpanId => "spanId",
            Member::ParentSpanId => "parentSpanId",
            Member::StartTime => "startTimeUnixNano",
            Member::EndTime => "endTimeUnixNano",
            Member::TimeUnixNano => "timeUnixNano",
            Member::Name => "name",
            Member::Version => "version",
            Member::Kind => "kind",
            Member::Status => "status",
            Member::Message => "message",
            Member::Code => "code",
            Member::Attributes => "attributes",
            Member::Events => "events",
            Member::Links => "links",
            Member::Key => "key",
            Member::Value => "value",
            Member::StringValue => "stringValue",
            Member::BoolValue => "boolValue",
            Member::IntValue => "intValue",
            Member::DoubleValue => "doubleValue",
            Member::ArrayValue => "arrayValue",
            Member::KvlistValue => "kvlistValue",
            Member::BytesValue => "bytesValue",
        }
    }
}

/// A step from a value into a part of it.
#[derive(Clone, Copy, Debug)]
pub enum Step {
    /// To an item of a list, by its index.
    Item(usize),
    /// To a member of an object.
    Of(Member),
}

/// The steps from a value to a part of it. They are kept in reverse, since a path grows at its front.
#[derive(Debug, Drop)]
pub(crate) struct Path {
    reversed: Vec<Step>,
}

impl Model for Path {
    ghost use Rattle.std.specs.Prelude.{List, reverse};
    ghost use Rattle.otlp_spans.specs.declared.paths.Step.{Step};

    ghost Value = { List Step };

    ghost view = { λ p. reverse p.reversed.items };
}

impl Path {
    /// The path to the value itself.
    pub(crate) fn here(alloc: Global) -> Path
        ensures { result ≡ [] }
    {
        Path {
            reversed: Vec::new(alloc),
        }
    }

    /// The path with a step before it.
    pub(crate) fn behind(self, step: Step) -> Result<Path, Memory>
        ensures { IfOk result (λ p. p ≡ step ∷ self) }
    {
        let mut reversed = self.reversed;
        reversed.push(step)?;
        Ok(Path { reversed })
    }

    /// The text of the path: `$`, and for each step `.name` or `[index]`.
    pub(crate) fn text(self, alloc: Global) -> Result<Text, Memory>
        ensures { IfOk result (λ t. t ≡ path_text self) }
    {
        let mut steps = self.reversed;
        let mut text = String::from_str(alloc, "$")?;
        while let Some(step) = steps.pop() {
            push_step(&mut text, step)?;
        }
        Ok(Text::of(text))
    }
}

/// Appends the text of a step.
fn push_step(text: &mut String, step: Step) -> Result<(), Memory>
    ensures { OnOk result (string_bytes text.new ≡ string_bytes text.old ++ step_text step) }
{
    match step {
        Step::Item(index) => {
            write!(text, "[{index}]")?;
        }
        Step::Of(member) => {
            text.push_str(".")?;
            text.push_str(member.name())?;
        }
    }
    Ok(())
}
