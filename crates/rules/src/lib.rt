// The lexing rules: what stands next, from what lies ahead and what is open. No rule knows an offset, a line, a column or the size of a table.

#![tactic(auto)]

mod causes;
mod effects;
mod examples;
mod found;
mod parts;

pub use effects::effect;
pub use examples::samples_hold;
pub use found::{Around, Found, Layout, Miss};
pub use parts::{Change, Effect, Move, Pass, Reach, Rule, Start};
