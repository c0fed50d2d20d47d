// Escape sequences of double-quoted strings, one character at a time.

#![tactic(auto)]

mod cause;
mod record;
mod steps;

pub use record::{Escape, State, Unescape};
