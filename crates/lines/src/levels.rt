use token::Span;

// The open Indents: parts of a text, outermost first.
#[derive(Clone, Copy)]
pub struct Levels<'a> {
    pub text: &'a [u8],
    pub spans: &'a [Span],
}
