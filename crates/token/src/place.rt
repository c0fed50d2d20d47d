use crate::kinds::TokenKind;

// A place in a text. All three numbers start at 0 and count bytes; `column` starts again behind each line feed that is not the text's last byte.
#[derive(Clone, Copy, Debug, Default)]
pub struct Position {
    pub offset: u32,
    pub line: u32,
    pub column: u32,
}

// A part of a text: the bytes from `offset` on, `length` of them.
#[derive(Clone, Copy, Debug, Default)]
pub struct Span {
    pub offset: u32,
    pub length: u32,
}

// A piece of a text: what it is, where it begins, and how many bytes it has.
#[derive(Clone, Copy, Debug)]
pub struct Token {
    pub kind: TokenKind,
    pub position: Position,
    pub length: u32,
}
