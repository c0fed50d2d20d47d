ghost use Rattle.std.specs.Prelude.{◌≡◌, ◌<◌, true, IfSome, if◌then◌else◌, Some, None, Ok};
ghost use Rattle.unescape.specs.Escapes.{move, ended, closed, widened, digit, digit_value};
ghost use Rattle.unescape.specs.Moves.{given, after};
ghost use Rattle.unescape.specs.Sane.{sane};

use crate::record::{Escape, State, Unescape};

impl Unescape {
    // At the beginning of a text, with escape sequences or without.
    pub fn new(escapes: bool) -> Self
        ensures { result.state ≡ (if escapes then State.Initial else State.Raw) }
    {
        Unescape {
            state: if escapes { State::Initial } else { State::Raw },
        }
    }

    // One character more: the character that it gives, if any. After a refusal the state is as before.
    pub fn step(&mut self, c: char) -> Result<Option<char>, Escape>
        ensures gives { result ≡ given (move self.old.state c) }
        ensures moves { self.new.state ≡ after self.old.state (move self.old.state c) }
    {
        match (self.state, c) {
            (State::Raw, c) => Ok(Some(c)),
            (State::Initial, '\\') => self.go(State::Backslash),
            (State::Initial, c) => Ok(Some(c)),
            (State::Backslash, 'n') => self.give('\n'),
            (State::Backslash, 'r') => self.give('\r'),
            (State::Backslash, 't') => self.give('\t'),
            (State::Backslash, '\\') => self.give('\\'),
            (State::Backslash, '"') => self.give('"'),
            (State::Backslash, '\n') => self.go(State::Initial),
            (State::Backslash, '\r') => self.go(State::BackslashCarriageReturn),
            (State::Backslash, 'u') => self.go(State::Unicode),
            (State::Backslash, _) => Err(Escape::InvalidEscapeSequence),
            (State::BackslashCarriageReturn, '\n') => self.go(State::Initial),
            (State::BackslashCarriageReturn, _) => Err(Escape::InvalidEscapeSequence),
            (State::Unicode, '{') => self.go(State::UnicodeValue {
                value: 0,
                digits: 0,
            }),
            (State::Unicode, _) => Err(Escape::UnicodeEscapeDelimiter),
            (State::UnicodeValue { value, digits }, '}') => self.close(value, digits),
            (State::UnicodeValue { value, digits }, c) => self.widen(value, digits, c),
        }
    }

    // Gives a character and goes back to the beginning. It stays beside `go`: one method for both would have every row of the step write out a half that the row does not have.
    fn give(&mut self, c: char) -> Result<Option<char>, Escape>
        ensures gives { result ≡ Ok (Some c) }
        ensures moves { self.new.state ≡ State.Initial }
    {
        self.state = State::Initial;
        Ok(Some(c))
    }

    // Goes on to a state and gives nothing.
    fn go(&mut self, state: State) -> Result<Option<char>, Escape>
        requires { sane state ≡ true }
        ensures gives { result ≡ Ok None }
        ensures moves { self.new.state ≡ state }
    {
        self.state = state;
        Ok(None)
    }

    // The closing brace behind a value. `value` and `digits` stay two numbers: a struct of them would only be made and taken apart, in the step, in `widen` and in each definition of a move.
    fn close(&mut self, value: u32, digits: u32) -> Result<Option<char>, Escape>
        ensures gives { result ≡ given (closed value digits) }
        ensures moves { self.new.state ≡ after self.old.state (closed value digits) }
    {
        if digits == 0 {
            return Err(Escape::UnicodeEscapeEmpty);
        }
        let c = char::from_u32(value).ok_or(Escape::UnicodeEscapeRange)?;
        self.give(c)
    }

    // A character between the braces that does not close them.
    #[tactic(auto, using(crate::proofs::Digits::few, crate::proofs::Digits::one_more))]
    fn widen(&mut self, value: u32, digits: u32, c: char) -> Result<Option<char>, Escape>
        requires { sane (State.UnicodeValue value digits) ≡ true }
        ensures gives { result ≡ given (widened value digits c) }
        ensures moves { self.new.state ≡ after self.old.state (widened value digits c) }
    {
        let digit = c.to_digit(16).ok_or(Escape::UnicodeEscapeCharacter)?;
        if digits >= 6 {
            return Err(Escape::UnicodeEscapeLength);
        }
        self.go(State::UnicodeValue {
            value: value * 16 + digit,
            digits: digits + 1,
        })
    }

    // At the end of a text: whether it may end here.
    pub fn end(&self) -> Result<(), Escape>
        ensures { result ≡ ended self.now.state }
    {
        match self.state {
            State::Raw | State::Initial => Ok(()),
            State::BackslashCarriageReturn => Err(Escape::InvalidEscapeSequence),
            State::Backslash | State::Unicode | State::UnicodeValue { .. } => Err(
                Escape::UnicodeEscapeUnterminated,
            ),
        }
    }
}
