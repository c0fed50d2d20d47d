use crate::found::Layout;
use token::{Delimiter, StringDelimiter, TokenKind};

// A step of a scan over a byte and so many more, with the next character escaped or not.
#[derive(Clone, Copy)]
pub struct Pass {
    pub more: usize,
    pub escaped: bool,
}

// What a scan does at a place: a step, or it stops.
pub type Move = Option<Pass>;

// Where the inside of a string leads: to its delimiter, to an interpolation, each with the bytes up to and with it, or to the end of the text.
#[derive(Clone, Copy)]
pub enum Reach {
    Closes(usize),
    Pauses(usize),
    Ends,
}

// What a line starts with: space that changes nothing, indentation that goes on, less indentation, more of it, or wrong indentation.
#[derive(Clone, Copy)]
pub enum Start {
    Still(usize),
    Aligned(usize),
    Outward,
    Inward(usize),
    Wrong(Layout, usize),
}

// The rules of the general table, of which a character picks one. Each has its own definition and its own case in the law, so those for `!`, `+`, `=` and `:` stand apart.
#[derive(Clone, Copy)]
pub enum Rule {
    Blank,
    Comment,
    Single(TokenKind),
    ByteOrderMark,
    Bang,
    Plus,
    Equals,
    Colon,
    Twice(u8, TokenKind),
    Closing(Delimiter, TokenKind),
    Brace,
    LineEnd,
    Escape,
    Quote(StringDelimiter),
    Name,
    Unknown,
}

// What a token changes beside the place, but for Indents and what belongs to them.
#[derive(Clone, Copy)]
pub enum Change {
    Nothing,
    Marks,
    Unmarks,
    SeesColon,
    Names,
    Opens(Delimiter),
    Closes(Delimiter),
    BeginsFormat,
    EndsFormat,
}

// What a token does once it is handed out.
#[derive(Clone, Copy)]
pub enum Effect {
    Indents,
    Dedents,
    Texts,
    Ends,
    Other(Change),
}
