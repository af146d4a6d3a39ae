//! Theorems about numbers of kinds and codes, and about equal resources and scopes.
//!
//! Each function has an empty body: its contract is the statement, and its proof is found by the check or stands in
//! `proofs/laws/`. Nothing calls them.

ghost use Rattle.std.specs.Prelude.{◌≡◌, ◌↔◌, ℕ, IsTrue, Some};
ghost use Rattle.span_types.specs.Equal.{same_resource, same_scope};
ghost use Rattle.span_types.specs.Numbers.{code_number, code_numbered, kind_number, kind_numbered};
ghost use Rattle.span_types.specs.declared.attrs.Resource.{Resource};
ghost use Rattle.span_types.specs.declared.attrs.Scope.{Scope};
ghost use Rattle.span_types.specs.declared.spans.SpanKind.{SpanKind};
ghost use Rattle.span_types.specs.declared.spans.StatusCode.{StatusCode};

/// Each kind and each code has one number, and a number is that of one kind and of one code at most.
pub fn numbers_are_of_one()
    ensures kind_of_number { (k : SpanKind) → kind_numbered (kind_number k) ≡ Some k }
    ensures number_of_kind { (n : ℕ) (k : SpanKind) → kind_numbered n ≡ Some k → kind_number k ≡ n }
    ensures code_of_number { (c : StatusCode) → code_numbered (code_number c) ≡ Some c }
    ensures number_of_code { (n : ℕ) (c : StatusCode) → code_numbered n ≡ Some c
        → code_number c ≡ n }
{}

/// Resources and scopes are equal, as maps test their keys, exactly where contracts see the same.
pub fn equal_where_same()
    ensures resources { (a b : Resource) → IsTrue (same_resource a b) ↔ (a ≡ b) }
    ensures scopes { (a b : Scope) → IsTrue (same_scope a b) ↔ (a ≡ b) }
{}
