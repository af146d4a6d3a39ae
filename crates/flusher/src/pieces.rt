//! The pieces in which a block is written.

ghost use Rattle.std.specs.Prelude.{◌≡◌, ◌+◌, ◌<◌, ◌≤◌, length, take, drop};

/// How many bytes a piece has, but for a block's last one.
const PIECE: usize = 65536;

/// The next piece of a block's bytes: 65,536 of them from there on, or all that are left.
pub fn piece(bytes: &[u8], from: usize) -> &[u8]
    requires { from ≤ length bytes.now }
    ensures bytes { result.now ≡ take 65536 (drop from bytes.now) }
    ensures end { from + length result.now ≤ length bytes.now }
    ensures some { from < length bytes.now → 1 ≤ length result.now }
    ensures part { result.now ≡ take (length result.now) (drop from bytes.now) }
    ensures rest { drop (from + length result.now) bytes.now ≡ drop 65536 (drop from bytes.now) }
{
    let size = (bytes.len() - from).min(PIECE);
    &bytes[from..from + size]
}
