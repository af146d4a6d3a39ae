//! How far a run of bytes of one kind goes.

ghost use Rattle.std.specs.Prelude.{◌≡◌, ◌==◌, not};
ghost use Rattle.std.specs.Char.{is_ascii_digit};
ghost use Rattle.std.specs.List.{prefix_len};
ghost use Rattle.traceql_tokens.specs.Bytes.{is_blank, ends_name, is_name_byte};

/// Whether the byte is white space: a space, a tab, a line feed or a carriage return.
fn is_blank(byte: u8) -> bool
    ensures { result ≡ is_blank byte }
{
    matches!(byte, b' ' | b'\t' | b'\n' | b'\r')
}

/// Whether a name without quotes ends before this byte.
fn ends_name(byte: u8) -> bool
    ensures { result ≡ ends_name byte }
{
    is_blank(byte)
        || matches!(
            byte,
            b'`' | b'{'
                | b'}'
                | b'('
                | b')'
                | b'='
                | b'~'
                | b'!'
                | b'<'
                | b'>'
                | b'&'
                | b'|'
                | b'^'
                | b','
                | b'"'
        )
}

/// How many bytes of white space the bytes begin with.
pub(crate) fn blank_len(bytes: &[u8]) -> usize
    ensures { result ≡ prefix_len is_blank bytes.now }
{
    bytes.iter().take_while(|byte| is_blank(**byte)).count()
}

/// How many decimal digits the bytes begin with.
pub(crate) fn digits_len(bytes: &[u8]) -> usize
    ensures { result ≡ prefix_len is_ascii_digit bytes.now }
{
    bytes
        .iter()
        .take_while(|byte| byte.is_ascii_digit())
        .count()
}

/// How long the name without quotes is that the bytes begin with; it may be empty.
pub(crate) fn name_len(bytes: &[u8]) -> usize
    ensures { result ≡ prefix_len is_name_byte bytes.now }
{
    bytes.iter().take_while(|byte| !ends_name(**byte)).count()
}

/// How many bytes stand before the first backquote, or before the end where there is none.
pub(crate) fn raw_len(bytes: &[u8]) -> usize
    ensures { result ≡ prefix_len (λ b. not (b == 96)) bytes.now }
{
    bytes.iter().take_while(|byte| **byte != b'`').count()
}
