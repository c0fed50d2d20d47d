use token::{Delimiter, TokenKind};

// What the tokens handed out left open, as far as a rule looks.
#[derive(Clone, Copy)]
pub struct Around {
    // The delimiter that was opened last and is still open.
    pub newest: Option<Delimiter>,
    // Whether an interpolation of a body is open.
    pub marked: bool,
    // Whether the line belongs to the body of a recipe.
    pub body: bool,
    // Whether the token just before is the identifier f.
    pub formats: bool,
}

// What is wrong with the layout of a text.
#[derive(Clone, Copy)]
pub enum Layout {
    MixedLeadingWhitespace,
    InconsistentLeadingWhitespace,
    UnknownStartOfToken,
    UnexpectedCharacter,
    UnexpectedEndOfToken,
    MismatchedClosingDelimiter,
    UnexpectedClosingDelimiter,
    InvalidEscapeSequence,
    EscapeEndOfFile,
    UnpairedCarriageReturn,
    UnterminatedString,
    UnterminatedBacktick,
}

// Why a rule finds no token.
#[derive(Clone, Copy)]
pub enum Miss {
    // A fault: why, how many bytes ahead, and over how many.
    Fails(Layout, usize, usize),
    // The text ends while an interpolation is open.
    Unclosed,
}

// What a rule finds: a token here, of a kind and a length, or why there is none. A pair, since most arms of the table are a kind and a numeral.
pub type Found = Result<(TokenKind, usize), Miss>;
