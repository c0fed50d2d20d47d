// Sources of tokens: a session, a stored roll, and the layer that leaves out Whitespace; and string literals over any of them.

#![tactic(auto)]

mod layer;
mod lending;
mod lent;
mod literals;
mod past;
mod roll;
mod rolls;
mod sessions;
mod significant;
mod sourced;

pub use layer::Significant;
pub use lent::Lent;
pub use literals::literal;
pub use past::{glance_past, next_past};
pub use roll::Roll;
pub use rolls::MAX_TOKENS;
pub use sourced::TokenSource;
