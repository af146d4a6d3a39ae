//! Writing a metrics query's series, series to JSON.

ghost use Rattle.std.specs.Prelude.{◌≡◌, IfOk, decimal, string_bytes};
ghost use Rattle.serde_json.specs.View.{view};
ghost use Rattle.search_text.specs.Results.{list_json};
ghost use Rattle.search_text.specs.Series.{all_series_json, count_json, series_json, series_text, quotient_text};

use crate::values::values;
use serde_json::{Value as Json, json};
use span_types::{Memory, Text};
use spanset_eval::{Count, Series, SeriesList};
use std::alloc::Global;

/// The text of a metrics query's series, as compact JSON with ascending keys: an object whose member `series` has an
/// object for each series, in the order in which they stand. The one error is out of memory.
#[tactic(auto, unfolding(crate::specs::Series::series_text))]
pub fn write_series(alloc: Global, series: &SeriesList) -> Result<Text, Memory>
    ensures { IfOk result (λ text. text ≡ series_text series.now) }
{
    let value = all_series(alloc, series.as_slice())?;
    Ok(Text::of(value.to_string(alloc)?))
}

/// The whole object, whose one member is the list of series.
#[tactic(auto, unfolding(crate::specs::Series::all_series_json))]
fn all_series(alloc: Global, series: &[Series]) -> Result<Json, Memory>
    ensures { IfOk result (λ v. view v ≡ all_series_json series.now) }
{
    let mut list = Vec::new(alloc);
    for one in series {
        list.push(one_series(alloc, one)?)?;
    }
    Ok(json!(in alloc; {"series": Json::from(list)})?)
}

/// A series.
#[tactic(auto, unfolding(crate::specs::Series::series_json))]
fn one_series(alloc: Global, series: &Series) -> Result<Json, Memory>
    ensures { IfOk result (λ v. view v ≡ series_json series.now) }
{
    let by = values(alloc, series.by.as_slice())?;
    let counts = counts(alloc, series.values.as_slice())?;
    Ok(json!(in alloc; {"by": by, "values": counts})?)
}

/// What is shown of neighbouring buckets.
fn counts(alloc: Global, list: &[Count]) -> Result<Json, Memory>
    ensures { IfOk result (λ v. view v ≡ list_json count_json list.now) }
{
    let mut values = Vec::new(alloc);
    for item in list {
        values.push(count(alloc, *item)?)?;
    }
    Ok(Json::from(values))
}

/// What is shown of a bucket.
#[tactic(auto, unfolding(crate::specs::Series::count_json))]
fn count(alloc: Global, count: Count) -> Result<Json, Memory>
    ensures { IfOk result (λ v. view v ≡ count_json count) }
{
    if count.denominator == 1 {
        let digits = whole(alloc, count.numerator)?;
        return Ok(json!(in alloc; {"intValue": digits})?);
    }
    let digits = quotient(alloc, count)?;
    Ok(json!(in alloc; {"ratioValue": digits})?)
}

/// A whole number as a decimal text.
fn whole(alloc: Global, number: u128) -> Result<String, Memory>
    ensures { IfOk result (λ s. string_bytes s ≡ decimal number) }
{
    Ok(number.to_string(alloc)?)
}

/// A fraction: its numerator, a slash and its denominator.
fn quotient(alloc: Global, count: Count) -> Result<String, Memory>
    ensures { IfOk result (λ s. string_bytes s ≡ quotient_text count) }
{
    let Count {
        numerator,
        denominator,
    } = count;
    Ok(format!(in alloc; "{numerator}/{denominator}")?)
}
