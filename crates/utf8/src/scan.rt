ghost use Rattle.std.specs.Prelude.{◌≡◌, ◌<◌, length, IfSome, Some, None, MatchResult};
ghost use Rattle.utf8.specs.Utf8.{first_bad_offset};

use crate::grammar::character;
use std::str::from_utf8_unchecked;

// The place of the first byte at which a character should begin and none does.
pub fn first_bad(bytes: &[u8]) -> Option<usize>
    ensures is { result ≡ first_bad_offset bytes.now }
    ensures within { IfSome result (λ i. i < length bytes.now) }
{
    let mut rest = bytes;
    while let Some(n) = character(rest) {
        rest = &rest[n..];
    }
    (!rest.is_empty()).then_some(bytes.len() - rest.len())
}

// The bytes as text, or the place of the first bad sequence. The rows of the grammar have tested them, and not the library's `from_utf8`, so that code and definition stand row by row beside one another.
pub fn text(bytes: &[u8]) -> Result<&str, usize>
    ensures { MatchResult result (λ s. (s.now ≡ bytes.now) × (first_bad_offset bytes.now ≡ None)) (λ i. (first_bad_offset bytes.now ≡ Some i) × (i < length bytes.now)) }
{
    match first_bad(bytes) {
        Some(at) => Err(at),
        None => Ok(unsafe { from_utf8_unchecked(bytes) }),
    }
}
