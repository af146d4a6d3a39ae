//! Selected fields in their printed form, from a query: the names under which results show them.

ghost use Rattle.std.specs.Prelude.{◌≡◌, ◌++◌, IfOk, OnOk, map};
ghost use Rattle.traceql_syntax.specs.Trees.{query_tree, stage_tree};
ghost use Rattle.traceql_print.specs.Text.{field_text};
ghost use Rattle.spanset_eval.specs.Stages.{fields_of_stage};
ghost use Rattle.search_text.specs.Fields.{printed_fields};

use span_types::{Memory, Seq, Text};
use std::alloc::Global;
use traceql_print::print_field;
use traceql_syntax::{Query, Stage};

/// Texts in order.
pub type Texts = Seq<Text>;

/// The fields that a query's `select` stages name, in the text's order, each in its printed form. A field that is named
/// twice stands there twice. It fails only if memory runs out.
#[tactic(auto, unfolding(crate::specs::Fields::printed_fields))]
pub fn printed_fields(alloc: Global, query: &Query) -> Result<Texts, Memory>
    ensures { IfOk result (λ texts. texts ≡ printed_fields (query_tree query.now)) }
{
    let mut texts = Vec::new(alloc);
    for stage in query.stages.as_slice() {
        push_fields(alloc, &mut texts, stage)?;
    }
    Ok(Texts::of(texts))
}

/// Puts the fields of a stage after others.
fn push_fields(alloc: Global, texts: &mut Vec<Text>, stage: &Stage) -> Result<(), Memory>
    ensures { OnOk result (texts.new.items
        ≡ texts.old.items ++ map field_text (fields_of_stage (stage_tree stage.now))) }
{
    if let Stage::Select(fields) = stage {
        for field in fields.as_slice() {
            texts.push(print_field(alloc, field)?)?;
        }
    }
    Ok(())
}
