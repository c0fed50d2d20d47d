// Bytes written as words: `61` is the byte 61, and `61*65536` so many of them.

#![tactic(auto)]

mod error;

ghost use Rattle.std.specs.Prelude.{◌≡◌, ◌++◌, IfErr, IfOk, MatchResult, OnErr, OnOk};
ghost use Rattle.words.specs.Lines.{RefusesLine, StandsFor};
ghost use Rattle.words.specs.Words.{IsWord, byte_part, bytes_of, count_part};
ghost use Rattle.words.specs.Refusals.{Refuses};

pub use error::WordError;
use std::alloc::Global;

// The bytes that a line of words stands for.
pub fn line(heap: Global, text: &str) -> Result<Vec<u8>, WordError>
    ensures ok { IfOk result (λ bytes. StandsFor text.now bytes.items) }
    ensures err { IfErr result (λ e. RefusesLine e text.now) }
{
    let mut bytes = Vec::new(heap);
    for word in text.split_whitespace() {
        append(&mut bytes, word)?;
    }
    Ok(bytes)
}

// Appends the bytes that a word stands for. Where it refuses, the bytes are as they were.
pub fn append(bytes: &mut Vec<u8>, word: &str) -> Result<(), WordError>
    ensures ok { OnOk result (bytes.new.items ≡ bytes.old.items ++ bytes_of word.now) }
    ensures err { OnErr result (bytes.new.items ≡ bytes.old.items) }
    ensures tells { MatchResult result (λ _. IsWord word.now) (λ e. Refuses e word.now) }
{
    let (byte, count) = parts(word);
    let byte = u8::from_str_radix(byte, 16)?;
    let count = count.parse::<u32>()?;
    let length = bytes.len() + count as usize;
    // Room as appending them one by one makes it: doubled from what another count needed, it would come to more.
    let room = length.checked_next_power_of_two().unwrap_or(length);
    bytes.reserve_exact(room.saturating_sub(bytes.len()))?;
    bytes.resize(length, byte)?;
    Ok(())
}

// The byte of a word and its count, both as they are written.
fn parts(word: &str) -> (&str, &str)
    ensures byte { result.0.now ≡ byte_part word.now }
    ensures count { result.1.now ≡ count_part word.now }
{
    word.split_once('*').unwrap_or((word, "1"))
}
