ghost use Rattle.std.specs.Prelude.{◌≡◌, ◌≤◌, true};
ghost use Rattle.rules.specs.Effects.{effect_of};
ghost use Rattle.stack.specs.Held.{room, stacked};
ghost use Rattle.lexer.specs.Answers.{answer as answer_of, full as full_of, lacks as lacks_of, placed as placed_by, roomed, unclosed as unclosed_at};
ghost use Rattle.session.specs.Sessions.{state_of};
ghost use Rattle.session.specs.Sized.{Sized};

use crate::passing::place_behind;
use crate::record::Session;
use rules::{Change, Effect, Found, Miss, effect};
use stack::Stack;
use token::{Cause, Fault, Layer, Position, Token};

// The fault over a mark that is open at the end.
fn unclosed(mark: Option<Token>, position: Position) -> Fault
    ensures { result ≡ unclosed_at mark position }
{
    let cause = Cause::UnterminatedInterpolation;
    match mark {
        Some(t) => Fault::over(cause, Layer::Session, t),
        None => Fault::new(cause, Layer::Session, position, 0),
    }
}

// The cause where a table is full.
fn full<T: Copy + Drop>(table: &Stack<'_, T>, cause: Cause) -> Option<Cause>
    ensures { result ≡ full_of (stacked table.now) (room table.now) cause }
{
    table.is_full().then_some(cause)
}

impl<'a, 't> Session<'a, 't> {
    // What is found, at the session's place. A match, since `map_err` would need what `Sized` says of a fault once more, at the closure.
    fn placed(&self, found: Found) -> Result<Token, Fault>
        requires { Sized (state_of self.now) found }
        ensures { result ≡ placed_by (state_of self.now) found }
    {
        match found {
            Ok((kind, n)) => Ok(Token {
                kind,
                position: self.cursor.position(),
                length: n as u32,
            }),
            Err(Miss::Fails(layout, distance, n)) => {
                let there = place_behind(self.cursor, distance);
                let cause = Cause::from(layout);
                Err(Fault::new(cause, Layer::Session, there, n as u32))
            }
            Err(Miss::Unclosed) => Err(unclosed(self.mark, self.cursor.position())),
        }
    }

    // The table that a token needs and that is full, if one is: an option, since it is a refusal only over a token. The definitions go over the effects as data, and so does this.
    fn lacks(&self, effect: Effect) -> Option<Cause>
        ensures { result ≡ lacks_of (state_of self.now) effect }
    {
        match effect {
            Effect::Indents => full(&self.levels, Cause::LevelsFull),
            Effect::Other(Change::Opens(_) | Change::BeginsFormat) => {
                full(&self.openers, Cause::OpenersFull)
            }
            _ => None,
        }
    }

    // The next token, the fault, or nothing after Eof.
    pub(crate) fn answer(&self) -> Result<Option<Token>, Fault>
        ensures { result ≡ answer_of (state_of self.now) }
    {
        if self.ended {
            return Ok(None);
        }
        let token = self.placed(self.found())?;
        self.stored(token)
    }

    // A token that was found, if the table that it needs has room.
    fn stored(&self, token: Token) -> Result<Option<Token>, Fault>
        ensures { result ≡ roomed token (lacks_of (state_of self.now) (effect_of token.kind)) }
    {
        match self.lacks(effect(token.kind)) {
            None => Ok(Some(token)),
            Some(cause) => Err(Fault::over(cause, Layer::Session, token)),
        }
    }
}
