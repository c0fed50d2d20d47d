// The records that every layer shares: places, tokens, delimiters and faults.

#![tactic(auto)]

mod fault;
mod kinds;
mod place;

pub use fault::{Cause, Fault, Layer};
pub use kinds::{Delimiter, StringDelimiter, StringKind, TokenKind};
pub use place::{Position, Span, Token};
