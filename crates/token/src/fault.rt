ghost use Rattle.std.specs.Prelude.{◌≡◌, Some};
ghost use Rattle.token.specs.Causes.{number_of};
ghost use Rattle.token.specs.Told.{fault_shown, refusal};

use crate::place::{Position, Token};
use std::error::Error;
use std::fmt;

// Why a call refuses. The first nine name what the calling program did, those up to `UnterminatedInterpolation` the layout of the text, the rest its strings; `InvalidEscapeSequence` comes of both.
#[derive(Clone, Copy, Debug, PartialEq, Eq)]
pub enum Cause {
    TextTooLong = 1,
    InvalidUtf8,
    LevelsFull,
    OpenersFull,
    BufferTooShort,
    TokenOutsideText,
    NoStringLiteral,
    SourceEnded,
    NoStringToken,
    MixedLeadingWhitespace,
    InconsistentLeadingWhitespace,
    UnknownStartOfToken,
    UnexpectedCharacter,
    UnexpectedEndOfToken,
    MismatchedClosingDelimiter,
    UnexpectedClosingDelimiter,
    InvalidEscapeSequence,
    EscapeEndOfFile,
    UnpairedCarriageReturn,
    UnterminatedString,
    UnterminatedBacktick,
    UnterminatedInterpolation,
    UnicodeEscapeDelimiter,
    UnicodeEscapeEmpty,
    UnicodeEscapeLength,
    UnicodeEscapeRange,
    UnicodeEscapeCharacter,
    UnicodeEscapeUnterminated,
}

// Which part of the library refuses.
#[derive(Clone, Copy, PartialEq, Eq, Debug)]
pub enum Layer {
    Admission,
    Session,
    Text,
    Literal,
}

// A refusal: why, by which layer, and over which part of the text. `needed` is the length that would do where the buffer is too short, and 0 otherwise: a refusal is told as a layer and six numbers, the same for every cause.
#[derive(Clone, Copy, Debug)]
pub struct Fault {
    pub cause: Cause,
    pub layer: Layer,
    pub position: Position,
    pub length: u32,
    pub needed: u32,
}

impl fmt::Display for Fault {
    ghost output = { λ f. Some (fault_shown (refusal f)) };

    fn fmt<W: fmt::Write>(&self, f: &mut fmt::Formatter<W>) -> fmt::Result {
        let number = self.cause.number();
        let p = self.position;
        write!(
            f,
            "fault {number} {}:{} {} {}",
            p.line, p.column, p.offset, self.length
        )
    }
}

impl Error for Fault {}

impl Cause {
    // The number under which a cause is told, a refusal's one name; no two causes share one.
    pub fn number(self) -> u32
        ensures value { result ≡ number_of self }
        ensures alone { (other : Cause) → number_of other ≡ result → other ≡ self }
    {
        self as u32
    }
}

impl Fault {
    // A refusal over a part of the text, with nothing told of a length needed.
    pub fn new(cause: Cause, layer: Layer, position: Position, length: u32) -> Self
        ensures { result ≡ record { cause = cause; layer = layer; position = position; length = length; needed = 0 } }
    {
        Fault {
            cause,
            layer,
            position,
            length,
            needed: 0,
        }
    }

    // A refusal over the record of a token, whatever its numbers.
    pub fn over(cause: Cause, layer: Layer, token: Token) -> Self
        ensures { result ≡ record { cause = cause; layer = layer; position = token.position; length = token.length; needed = 0 } }
    {
        Fault::new(cause, layer, token.position, token.length)
    }

    // The refusal of a buffer that is too short for what stands over a part of the text.
    pub fn too_short(position: Position, length: u32, needed: u32) -> Self
        ensures { result ≡ record { cause = Cause.BufferTooShort; layer = Layer.Text; position = position; length = length; needed = needed } }
    {
        Fault {
            needed,
            ..Fault::new(Cause::BufferTooShort, Layer::Text, position, length)
        }
    }
}
