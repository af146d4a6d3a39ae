//! The entry point: a whole stripe's bytes to its first columns.

ghost use Rattle.std.specs.Prelude.{Bool, IfSome};
ghost use Rattle.block_stripes.specs.StripeReadings.{stripe_at};
ghost use Rattle.stripe_glances.specs.Glances.{IsGlance, TellsIfRead};

use crate::glances::Glance;
use crate::rows::content;
use byte_fields::Reader;
use std::alloc::Global;

/// The columns of a fixed width of a stripe, in either form. Texts, resources, scopes and the columns between are
/// jumped over, and what stands after the statuses isn't looked at. So nothing is said of a stripe that is malformed,
/// and None says nothing.
pub fn glance(alloc: Global, bytes: &[u8]) -> Option<Glance>
    ensures { IfSome result (λ g. (extended : Bool)
        → TellsIfRead IsGlance (stripe_at extended bytes.now) g) }
{
    let mut reader = Reader::new(alloc, bytes);
    let Ok(size) = reader.fixed64() else {
        return None;
    };
    if bytes.len() < 8 || size > bytes.len() as u64 - 8 {
        return None;
    }
    let end = 8 + size as usize;
    let mut reader = Reader::starting_at(alloc, &bytes[..end], 8);
    content(alloc, &mut reader)
}
