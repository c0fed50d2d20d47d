// The start of a line, the body of a recipe, and which rule comes when.

#![tactic(auto)]

mod ahead;
mod levels;
mod order;
mod reached;
mod reaches;
mod reads;
mod starts;

pub use ahead::Ahead;
pub use levels::Levels;
pub use order::{rule, rule_from};
pub use reached::Reach;
pub use reaches::blank_reach;
