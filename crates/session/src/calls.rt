ghost use Rattle.std.specs.Prelude.{◌≡◌};
ghost use Rattle.stack.specs.Held.{room};
ghost use Rattle.source.specs.Sources.{text_of};
ghost use Rattle.lexer.specs.States.{opening};
ghost use Rattle.session.specs.Calls.{SessionGlances, SessionNexts, SessionPlaces};
ghost use Rattle.session.specs.Sessions.{state_of};

use crate::record::Session;
use lines::Reach;
use source::{Cursor, Source};
use stack::Stack;
use token::{Delimiter, Fault, Position, Span, Token};

impl<'a, 't> Session<'a, 't> {
    // At the beginning of a source's text. Both tables are emptied.
    pub fn open(
        source: Source<'a>,
        mut levels: Stack<'t, Span>,
        mut openers: Stack<'t, Delimiter>,
    ) -> Self
        ensures { state_of result ≡ opening (text_of source.entry) (record { levels = room levels.entry; openers = room openers.entry }) }
    {
        levels.clear();
        openers.clear();
        Session {
            cursor: Cursor::new(source),
            levels,
            openers,
            mark: None,
            body: false,
            colon: false,
            formats: false,
            ended: false,
            blank: Reach::default(),
        }
    }

    // Hands out one token, refuses, or gives nothing after Eof.
    pub fn next(&mut self) -> Result<Option<Token>, Fault>
        ensures { SessionNexts (state_of self.old) result (state_of self.new) }
    {
        self.look_ahead();
        let answer = self.answer()?;
        if let Some(t) = answer {
            self.hand_out(t);
        }
        Ok(answer)
    }

    // The answer that next would give, and hands out nothing.
    pub fn glance(&mut self) -> Result<Option<Token>, Fault>
        ensures { SessionGlances (state_of self.old) result (state_of self.new) }
    {
        self.look_ahead();
        self.answer()
    }

    // Where the session is.
    pub fn place(&mut self) -> Position
        ensures { SessionPlaces (state_of self.old) result (state_of self.new) }
    {
        self.here()
    }

    // The cursor's place, for the methods on `&mut self` too: a cursor that is read there has no generated proof.
    pub(crate) fn here(&self) -> Position
        ensures { result ≡ self.now.cursor.position }
    {
        self.cursor.position()
    }
}
