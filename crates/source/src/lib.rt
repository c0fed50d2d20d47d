// Texts: admission, places, and the parts that tokens stand for.

#![tactic(auto)]

mod admission;
mod cursor;
mod lexeme;
mod record;
mod steps;

pub use admission::MAX_TEXT;
pub use cursor::Cursor;
pub use record::Source;
