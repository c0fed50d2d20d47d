ghost use Rattle.stream.specs.SessionSources.{SessionMoves, SessionStays, session_means};

use crate::sourced::TokenSource;
use session::Session;
use token::{Fault, Token};

// A session means the tokens that its definition gives, up to Eof or the fault.
impl<'a, 't> TokenSource for Session<'a, 't> {
    ghost meaning = { session_means };

    ghost stays = { SessionStays };

    ghost moves = { SessionMoves };

    fn glance(&mut self) -> Result<Option<Token>, Fault> {
        Session::glance(self)
    }

    fn next(&mut self) -> Result<Option<Token>, Fault> {
        Session::next(self)
    }
}
