//! The request line that words ask for: `trace ID` and `search ..` of the command line are answered as these lines of
//! a session.

ghost use Rattle.std.specs.Prelude.{◌≡◌, ◌++◌, IfOk, OnOk, option_map, string_bytes};
ghost use Rattle.command_words.specs.Spelling.{option_text, search_line, trace_line};

use std::alloc::{AllocError, Global};

/// The request line of a look-up: the word `trace`, one space and the id. It fails only if memory runs out.
pub(crate) fn trace_line(alloc: Global, id: &str) -> Result<String, AllocError>
    ensures { IfOk result (λ line. string_bytes line ≡ trace_line id.now) }
{
    let mut line = String::from_str(alloc, "trace ")?;
    line.push_str(id)?;
    Ok(line)
}

/// The request line of a search: the word `search`, the options that are there as `limit=..`, `spss=..`, `start=..` and
/// `end=..` in this order, and the query, with one space between. It fails only if memory runs out.
pub(crate) fn search_line(
    alloc: Global,
    limit: Option<&str>,
    spss: Option<&str>,
    start: Option<&str>,
    end: Option<&str>,
    query: &str,
) -> Result<String, AllocError>
    ensures { IfOk result (λ line. string_bytes line ≡ search_line (record {
      limit = option_map (λ s. s.now) limit.entry;
      spss = option_map (λ s. s.now) spss.entry;
      start = option_map (λ s. s.now) start.entry;
      end = option_map (λ s. s.now) end.entry;
      query = query.now;
    })) }
{
    let mut line = String::from_str(alloc, "search ")?;
    push_option(&mut line, "limit=", limit)?;
    push_option(&mut line, "spss=", spss)?;
    push_option(&mut line, "start=", start)?;
    push_option(&mut line, "end=", end)?;
    line.push_str(query)?;
    Ok(line)
}

// Puts an option after a text, and a space after it.
fn push_option(line: &mut String, name: &str, value: Option<&str>) -> Result<(), AllocError>
    ensures { OnOk result
        (string_bytes line.new
        ≡ string_bytes line.old ++ option_text name.now (option_map (λ s. s.now) value.entry)) }
{
    if let Some(value) = value {
        line.push_str(name)?;
        line.push_str(value)?;
        line.push_str(" ")?;
    }
    Ok(())
}
