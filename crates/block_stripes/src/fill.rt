//! Zeros up to a whole page of 4,096 bytes.

ghost use Rattle.std.specs.Prelude.{◌≡◌, ◌+◌, ◌^◌, ◌++◌, ◌<◌, ◌≤◌, OnOk, length, replicate};
ghost use Rattle.block_stripes.specs.StripeEncodings.{fill_size};
ghost use Rattle.block_stripes.specs.StripeReadings.{unfilled, zeros};

use byte_fields::Writer;
use span_types::Memory;

const PAGE_BYTES: usize = 4096;

/// How many bytes are wanting to whole pages.
pub fn fill_size(size: usize) -> usize
    ensures size { result ≡ fill_size size }
    ensures few { result ≤ 4096 }
{
    (PAGE_BYTES - size % PAGE_BYTES) % PAGE_BYTES
}

/// Adds zeros after so many bytes, up to a whole page.
pub fn put_fill(out: &mut Writer, size: usize) -> Result<(), Memory>
    ensures { OnOk result (out.new ≡ out.old ++ replicate (fill_size size) 0) }
{
    let zeros = [0; PAGE_BYTES];
    out.raw(&zeros[..fill_size(size)])
}

/// How many zeros bytes begin with.
fn zeros(bytes: &[u8]) -> usize
    ensures count { result ≡ zeros bytes.now }
    ensures few { result ≤ length bytes.now }
{
    for (index, byte) in bytes.iter().enumerate() {
        if *byte != 0 {
            return index;
        }
    }
    bytes.len()
}

/// The first offset that isn't as it must be after the end of the fields, unless there are zeros up to a whole page and
/// nothing else. `rest` is what comes after the end.
pub fn unfilled(end: usize, rest: &[u8]) -> Option<u64>
    requires { end + length rest.now < 2 ^ 64 }
    ensures { result ≡ unfilled end rest.now }
{
    let fill = fill_size(end);
    let zeros = zeros(rest);
    if zeros == fill && rest.len() == fill {
        return None;
    }
    Some((end + zeros.min(fill)) as u64)
}
