ghost use Rattle.std.specs.Prelude.{◌≡◌, true};
ghost use Rattle.unescape.specs.Sane.{sane};

// What a string can have wrong with its escape sequences.
#[derive(Clone, Copy)]
pub enum Escape {
    InvalidEscapeSequence,
    UnicodeEscapeDelimiter,
    UnicodeEscapeEmpty,
    UnicodeEscapeLength,
    UnicodeEscapeRange,
    UnicodeEscapeCharacter,
    UnicodeEscapeUnterminated,
}

// What came before the next character. In `Raw` a backslash is a character like any other.
#[derive(Clone, Copy)]
pub enum State {
    Raw,
    Initial,
    Backslash,
    BackslashCarriageReturn,
    Unicode,
    UnicodeValue { value: u32, digits: u32 },
}

// Unescaping, as far as it has come.
#[derive(Clone, Copy)]
pub struct Unescape {
    pub(crate) state: State,
    ghost fits: { sane state ≡ true },
}
