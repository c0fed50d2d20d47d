ghost use Rattle.std.specs.Prelude.{◌≡◌, ◌<◌, true, is_some};
ghost use Rattle.stack.specs.Held.{first as first_of, held, room};
ghost use Rattle.runs.specs.Coming.{tell};
ghost use Rattle.stream.specs.Rolled.{coming, forward, means, rolled};

use crate::roll::Roll;
use crate::sourced::TokenSource;
use stack::Stack;
use token::{Fault, Token};

// The most tokens that a source means: a text of 65,536 bytes has no more.
pub const MAX_TOKENS: usize = 98_305;

impl<'t> Roll<'t> {
    // Over a stack of tokens, with an ending; the cursor is at 0.
    pub fn new(tokens: Stack<'t, Token>, ending: Option<Fault>) -> Self
        ensures { rolled result ≡ record { entries = held tokens.entry; size = room tokens.entry; cursor = 0; ending = ending } }
    {
        Roll {
            tokens,
            cursor: 0,
            ending,
        }
    }

    // The token behind the cursor.
    fn behind(&self) -> Option<Token>
        ensures is { result ≡ first_of (coming (rolled self.now)) }
        ensures near { is_some result ≡ true → self.now.cursor < 98305 }
    {
        if self.cursor < MAX_TOKENS {
            self.tokens.get(self.cursor)
        } else {
            None
        }
    }

    // The first token to come, or the ending.
    fn first(&self) -> Result<Option<Token>, Fault>
        ensures { result ≡ tell (means (rolled self.now)) }
    {
        match (self.behind(), self.ending) {
            (None, Some(fault)) => Err(fault),
            (token, _) => Ok(token),
        }
    }

    // Passes the token behind the cursor, if there is one.
    fn pass(&mut self)
        ensures { rolled self.new ≡ forward (rolled self.old) }
    {
        if self.behind().is_some() {
            self.cursor += 1;
        }
    }
}

impl<'t> TokenSource for Roll<'t> {
    ghost meaning = { λ r. means (rolled r) };

    ghost stays = { λ a b. rolled b ≡ rolled a };

    ghost moves = { λ a b. rolled b ≡ forward (rolled a) };

    fn glance(&mut self) -> Result<Option<Token>, Fault> {
        self.first()
    }

    fn next(&mut self) -> Result<Option<Token>, Fault> {
        let answer = self.first();
        self.pass();
        answer
    }
}
