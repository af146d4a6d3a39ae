//! Laws of the parts: none of their bytes stand for two values, and each is read.

ghost use Rattle.std.specs.Prelude.{ℕ, List};
ghost use Rattle.block_columns.specs.ColumnLaws.{EncodedReads, ReadsEncoded};
ghost use Rattle.block_parts.specs.PartEncodings.{attrs_by, event_by, link_by, resource_by, scope_by};
ghost use Rattle.block_parts.specs.PartReadings.{attrs_with, event_with, link_with, resource_with, scope_with};
ghost use Rattle.block_parts.specs.PartsKept.{AreKeptAttrs, AreTexts, IsKeptEvent, IsKeptLink, IsKeptResource, IsKeptScope};

/// What is encoded with a table of texts is read with it.
pub fn encoded_is_read()
    ensures attrs { (t : List (List ℕ)) → AreTexts t
        → EncodedReads t (attrs_with t) attrs_by AreKeptAttrs }
    ensures event { (t : List (List ℕ)) → AreTexts t
        → EncodedReads t (event_with t) event_by IsKeptEvent }
    ensures link { (t : List (List ℕ)) → AreTexts t
        → EncodedReads t (link_with t) link_by IsKeptLink }
    ensures resource { (t : List (List ℕ)) → AreTexts t
        → EncodedReads t (resource_with t) resource_by IsKeptResource }
    ensures scope { (t : List (List ℕ)) → AreTexts t
        → EncodedReads t (scope_with t) scope_by IsKeptScope }
{}

/// What is read with a table of texts is what is encoded there.
pub fn read_is_encoded()
    ensures attrs { (t : List (List ℕ)) → AreTexts t
        → ReadsEncoded t (attrs_with t) attrs_by AreKeptAttrs }
    ensures event { (t : List (List ℕ)) → AreTexts t
        → ReadsEncoded t (event_with t) event_by IsKeptEvent }
    ensures link { (t : List (List ℕ)) → AreTexts t
        → ReadsEncoded t (link_with t) link_by IsKeptLink }
    ensures resource { (t : List (List ℕ)) → AreTexts t
        → ReadsEncoded t (resource_with t) resource_by IsKeptResource }
    ensures scope { (t : List (List ℕ)) → AreTexts t
        → ReadsEncoded t (scope_with t) scope_by IsKeptScope }
{}
