//! What a search asks of single spans: a hint, and what its filter asks of their columns.

ghost use Rattle.std.specs.Prelude.{◌≡◌, [], None, true};
ghost use Rattle.std.specs.List.{list_all};
ghost use Rattle.column_scan.specs.Sieves.{only_hint, reads_columns};
ghost use Rattle.column_scan.specs.Sifting.{patterns_in, trees_of};

use crate::Hint;
use std::alloc::Global;
use std::marker::Model;
use traceql_syntax::FieldExpr;
use traceql_types::Checked;

/// What a search asks of single spans: a hint, and conditions on kind, status and duration that the hinted span meets
/// as well.
#[derive(Drop)]
pub struct Sieve<'q> {
    pub(crate) hint: Hint,
    pub(crate) checked: Option<&'q Checked>,
    pub(crate) members: Vec<&'q FieldExpr>,
}

impl<'q> Model for Sieve<'q> {
    ghost use Rattle.column_scan.specs.Sieves.{SieveParts};
    ghost use Rattle.column_scan.specs.SieveCodes.{sieve_code};

    ghost Value = { SieveParts };

    ghost coded = { sieve_code };

    ghost use Rattle.column_scan.specs.Sifting.{IsKept, patterns_in, trees_of};

    ghost view = { λ a. record { hint = a.hint; patterns = patterns_in a.checked; members = trees_of a.members.items } };

    ghost invariant = { λ a. IsKept a.checked a.members.items };
}

impl<'q> Sieve<'q> {
    /// The sieve of a hint alone.
    pub fn by_hint(alloc: Global, hint: Hint) -> Sieve<'q>
        ensures { result ≡ only_hint hint }
    {
        Sieve {
            hint,
            checked: None,
            members: Vec::new(alloc),
        }
    }

    /// Its hint.
    pub fn hint(&self) -> &Hint
        ensures { result.now ≡ self.now.hint }
    {
        &self.hint
    }

    // Its members, which ask for columns alone.
    pub(crate) fn members(&self) -> &[&'q FieldExpr]
        ensures trees { trees_of result.now ≡ self.now.members }
        ensures columns { list_all reads_columns self.now.members ≡ true }
    {
        self.members.as_slice()
    }

    // The query whose members they are. Without one there are none.
    pub(crate) fn checked(&self) -> Option<&'q Checked>
        ensures patterns { patterns_in result ≡ self.now.patterns }
        ensures none { result ≡ None → self.now.members ≡ [] }
    {
        self.checked
    }
}
