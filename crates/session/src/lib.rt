// A session over a text: it looks at what comes next, and goes on once a token is handed out.

#![tactic(auto)]

mod answers;
mod calls;
mod hands;
mod looks;
mod passing;
mod record;

pub use record::Session;
