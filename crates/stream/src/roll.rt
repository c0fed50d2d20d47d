use stack::Stack;
use token::{Fault, Token};

// Stored tokens, read from a cursor on, and their ending. The caller lends the table; what it holds stays when the cursor moves.
#[derive(Drop)]
pub struct Roll<'t> {
    pub(crate) tokens: Stack<'t, Token>,
    pub(crate) cursor: usize,
    pub(crate) ending: Option<Fault>,
}
