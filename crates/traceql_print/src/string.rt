//! Writing strings and names: with quotes and escapes if they need them.

ghost use Rattle.std.specs.Prelude.{◌≡◌, ◌++◌, OnOk, not, string_bytes};
ghost use Rattle.std.specs.List.{list_all, prefix_len};
ghost use Rattle.std.specs.Option.{is_none};
ghost use Rattle.traceql_tokens.specs.Bytes.{ends_name, is_name_byte};
ghost use Rattle.traceql_print.specs.Text.{escape_letter, escaped_text, quoted_text, name_text};

use span_types::Memory;

/// The letter after the backslash where a byte of a string is written by an escape.
fn escape_letter(byte: u8) -> Option<char>
    ensures { result ≡ escape_letter byte }
{
    match byte {
        b'"' => Some('"'),
        b'\\' => Some('\\'),
        b'\n' => Some('n'),
        b'\r' => Some('r'),
        b'\t' => Some('t'),
        _ => None,
    }
}

/// How many bytes stand for themselves before the first that is written by an escape, or before the end.
fn plain_len(bytes: &[u8]) -> usize
    ensures { result ≡ prefix_len (λ b. is_none (escape_letter b)) bytes.now }
{
    bytes
        .iter()
        .take_while(|byte| escape_letter(**byte).is_none())
        .count()
}

/// Writes what stands between the quotes of a string.
fn push_escaped(out: &mut String, value: &str) -> Result<(), Memory>
    ensures { OnOk result (string_bytes out.new ≡ string_bytes out.old ++ escaped_text value.now) }
{
    let mut rest = value;
    loop {
        let bytes = rest.as_bytes();
        let plain = plain_len(bytes);
        out.push_str(&rest[..plain])?;
        if plain >= bytes.len() {
            return Ok(());
        }
        let Some(letter) = escape_letter(bytes[plain]) else {
            return Ok(());
        };
        out.push('\\')?;
        out.push(letter)?;
        rest = &rest[plain + 1..];
    }
}

/// Writes a string between double quotes.
pub(crate) fn push_quoted(out: &mut String, value: &str) -> Result<(), Memory>
    ensures { OnOk result (string_bytes out.new ≡ string_bytes out.old ++ quoted_text value.now) }
{
    out.push_str("\"")?;
    push_escaped(out, value)?;
    out.push_str("\"")?;
    Ok(())
}

/// Whether a name without quotes ends before this byte.
fn ends_name(byte: u8) -> bool
    ensures { result ≡ ends_name byte }
{
    matches!(
        byte,
        b' ' | b'\t'
            | b'\n'
            | b'\r'
            | b'`'
            | b'{'
            | b'}'
            | b'('
            | b')'
            | b'='
            | b'~'
            | b'!'
            | b'<'
            | b'>'
            | b'&'
            | b'|'
            | b'^'
            | b','
            | b'"'
    )
}

/// Whether a name can stand without quotes.
fn stands_bare(name: &[u8]) -> bool
    ensures { result ≡ list_all is_name_byte name.now }
{
    name.iter().all(|byte| !ends_name(*byte))
}

/// Writes an attribute's name, as a string where it can't stand without quotes.
pub(crate) fn push_name(out: &mut String, name: &str) -> Result<(), Memory>
    ensures { OnOk result (string_bytes out.new ≡ string_bytes out.old ++ name_text name.now) }
{
    if stands_bare(name.as_bytes()) {
        out.push_str(name)?;
        Ok(())
    } else {
        push_quoted(out, name)
    }
}
