//! Laws of stripes: no bytes stand for two lists of rows, and each is read.

ghost use Rattle.std.specs.Prelude.{◌≡◌, ℕ, [], List, Ok};
ghost use Rattle.span_types.specs.declared.spans.Row.{Row};
ghost use Rattle.byte_fields.specs.Reading.{AreBytes};
ghost use Rattle.block_stripes.specs.StripeReadings.{stripe_at};
ghost use Rattle.block_stripes.specs.Stripes.{StripeHolds, is_extended};

/// What the bytes of a stripe stand for is what reading gives.
pub fn held_is_read()
    ensures { (form : ℕ) (bytes : List ℕ) (rows : List Row) → StripeHolds form bytes rows
        → stripe_at (is_extended form) bytes ≡ Ok rows }
{}

/// What is read of bytes is what they stand for: bytes that are accepted are such as `write_stripe` gives.
pub fn read_is_held()
    ensures { (form : ℕ) (bytes : List ℕ) (rows : List Row) → AreBytes bytes
        → stripe_at (is_extended form) bytes ≡ Ok rows → StripeHolds form bytes rows }
{}

/// The bytes of a stripe stand for one list of rows at most.
pub fn one_meaning()
    ensures { (form : ℕ) (bytes : List ℕ) (rows others : List Row) → StripeHolds form bytes rows
        → StripeHolds form bytes others → rows ≡ others }
{}

/// Some rows have no bytes: no rows at all, for one.
pub fn no_rows_have_no_bytes()
    ensures { (form : ℕ) (bytes : List ℕ) → StripeHolds form bytes [] → ⊥ }
{}
