//! Theorems about headers: their bytes stand for one header, and reading gives it.
//!
//! Each function has an empty body: its contract is the statement, and its proof stands in `proofs/header_laws/`.
//! `block_read` and `block_build` call one each, to have its contract; proofs of `block_read` and `compactor` cite the
//! lemmas.

ghost use Rattle.std.specs.Prelude.{◌≡◌, ◌*◌, ℕ, List, Ok, length};
ghost use Rattle.byte_fields.specs.Reading.{AreBytes};
ghost use Rattle.block_format.specs.Headers.{HeaderHolds};
ghost use Rattle.block_format.specs.HeaderReadings.{header_at};
ghost use Rattle.block_format.specs.declared.header.Header.{Header};

/// What the bytes of a header stand for is what reading gives.
pub fn held_header_is_read()
    ensures { (bytes : List ℕ) (header : Header) → HeaderHolds bytes header
        → header_at bytes ≡ Ok header }
{}

/// What is read of bytes is the header that they stand for: bytes that are accepted are such as `write_header` gives.
pub fn read_header_is_held()
    ensures { (bytes : List ℕ) (header : Header)
        → AreBytes bytes → header_at bytes ≡ Ok header → HeaderHolds bytes header }
{}

/// The bytes of a header stand for one header at most.
pub fn one_header()
    ensures { (bytes : List ℕ) (header other : Header)
        → HeaderHolds bytes header → HeaderHolds bytes other → header ≡ other }
{}

/// The bytes of a header are as many pages as it says.
pub fn header_is_pages()
    ensures { (bytes : List ℕ) (header : Header)
        → HeaderHolds bytes header → length bytes ≡ 4096 * header.pages }
{}
