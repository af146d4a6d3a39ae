//! Bytes and offsets that stand in texts.

use span_types::Memory;
use std::alloc::Global;

/// In lists of offsets: the bytes aren't malformed.
pub(crate) const SOUND: u64 = 9999;

/// The bytes that stand in a text as words of two hexadecimal digits. Other words are comments.
pub(crate) fn bytes_of(alloc: Global, words: &str) -> Result<Vec<u8>, Memory> {
    let mut bytes = Vec::new(alloc);
    for word in words.split_whitespace() {
        if let Some(byte) = byte_of(word) {
            bytes.push(byte)?;
        }
    }
    Ok(bytes)
}

fn byte_of(word: &str) -> Option<u8> {
    match word.as_bytes() {
        [high, low] => Some(half(*high)? << 4 | half(*low)?),
        _ => None,
    }
}

fn half(digit: u8) -> Option<u8> {
    match digit {
        b'0'..=b'9' => Some(digit - b'0'),
        b'a'..=b'f' => Some(digit - b'a' + 10),
        _ => None,
    }
}

/// A page that begins with these bytes, and else has zeros.
pub(crate) fn page(alloc: Global, words: &str) -> Result<Vec<u8>, Memory> {
    let mut bytes = bytes_of(alloc, words)?;
    bytes.resize(4096, 0)?;
    Ok(bytes)
}

/// Puts these bytes there.
pub(crate) fn put(bytes: &mut [u8], place: usize, new: &[u8]) {
    for (old, byte) in bytes.iter_mut().skip(place).zip(new.iter()) {
        *old = *byte;
    }
}

/// The same page, but for these bytes from that place on.
pub(crate) fn overwritten(
    alloc: Global,
    words: &str,
    place: usize,
    new: &str,
) -> Result<Vec<u8>, Memory> {
    let mut bytes = page(alloc, words)?;
    let new = bytes_of(alloc, new)?;
    put(bytes.as_mut_slice(), place, new.as_slice());
    Ok(bytes)
}

/// A page that has these bytes at these places, and else zeros.
pub(crate) fn with_bytes(alloc: Global, bytes: &[(usize, u8)]) -> Result<Vec<u8>, Memory> {
    let mut page = page(alloc, "")?;
    for (place, byte) in bytes {
        if let Some(old) = page.get_mut(*place) {
            *old = *byte;
        }
    }
    Ok(page)
}

/// The offsets that stand in a text as words; each other word is [`SOUND`].
pub(crate) fn offsets(alloc: Global, words: &str) -> Result<Vec<u64>, Memory> {
    let mut offsets = Vec::new(alloc);
    for word in words.split_whitespace() {
        offsets.push(word.parse::<u64>().unwrap_or(SOUND))?;
    }
    Ok(offsets)
}
