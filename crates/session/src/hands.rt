ghost use Rattle.std.specs.Prelude.{◌≡◌, ◌<◌, true, false, [], ◌∷◌, length, Some, None, Ok};
ghost use Rattle.stack.specs.Held.{fits, stacked};
ghost use Rattle.lexer.specs.Answers.{after, answer as answer_of, behind, changed, full_by, lacks, seen as seen_of, stood};
ghost use Rattle.source.specs.Cursors.{ahead as ahead_of};
ghost use Rattle.session.specs.Sessions.{inner_of, stands, state_of, turned};

use crate::passing::pass;
use crate::record::Session;
use lexer::Seen;
use rules::{Change, Effect, effect};
use table::format_kind;
use token::{Delimiter, Span, Token};

impl<'a, 't> Session<'a, 't> {
    // What is seen of a token that begins here.
    #[tactic(auto, using(crate::proofs::Equal::front_same))]
    fn seen(&self, t: Token) -> Seen
        ensures { result ≡ seen_of t (ahead_of self.now.cursor) }
    {
        let ahead = self.cursor.rest();
        let n = (t.length as usize).min(ahead.len());
        Seen {
            quote: format_kind(ahead),
            f: ahead[..n] == [b'f'],
        }
    }

    // A small change, by a token that began what lay ahead. The definitions go over changes and effects as data, and so do this and `shift`.
    #[tactic(auto, using(crate::proofs::Handed::roomy))]
    fn change(&mut self, change: Change, t: Token, seen: Seen)
        requires { full_by (state_of self.old) change ≡ None }
        ensures { self.old.formats ≡ false → state_of self.new ≡ turned (state_of self.old) (changed change t seen (inner_of (state_of self.old))) }
    {
        match change {
            Change::Nothing => {}
            Change::Marks => self.mark = Some(t),
            Change::Unmarks => self.mark = None,
            Change::SeesColon => self.colon = true,
            Change::Names => self.formats = seen.f,
            Change::Opens(d) => self.opens(d),
            Change::BeginsFormat => self.opens(Delimiter::FormatString(seen.quote)),
            Change::Closes(_) | Change::EndsFormat => self.closes(),
        }
    }

    // A delimiter is opened.
    fn opens(&mut self, d: Delimiter)
        requires { fits self.old.openers ≡ true }
        ensures { let i = inner_of (state_of self.old) in state_of self.new ≡ turned (state_of self.old) (record i { openers = d ∷ i.openers }) }
    {
        self.openers.push(d).unwrap();
    }

    // The newest opener is closed.
    fn closes(&mut self)
        ensures { let i = inner_of (state_of self.old) in state_of self.new ≡ turned (state_of self.old) (record i { openers = behind i.openers }) }
    {
        self.openers.pop();
    }

    // A level is opened.
    fn indents(&mut self, t: Token)
        requires room { fits self.old.levels ≡ true }
        requires deep { length (stacked self.old.levels) < self.old.cursor.position.offset }
        ensures { let σ = state_of self.old in state_of self.new ≡ stands σ (record σ.standing { levels = record { offset = t.position.offset; length = t.length } ∷ σ.standing.levels; body = (inner_of σ).colon }) }
    {
        let span = Span {
            offset: t.position.offset,
            length: t.length,
        };
        self.levels.push(span).unwrap();
        self.body = self.colon;
    }

    // The innermost level is closed.
    fn dedents(&mut self)
        ensures { let σ = state_of self.old in state_of self.new ≡ stands σ (record σ.standing { levels = behind σ.standing.levels; body = false; inner = record σ.standing.inner { colon = false } }) }
    {
        self.levels.pop();
        self.body = false;
        self.colon = false;
    }

    // What a token does, but for the place.
    #[tactic(auto, using(crate::proofs::Handed::roomy))]
    fn shift(&mut self, effect: Effect, t: Token, seen: Seen)
        requires able { lacks (state_of self.old) effect ≡ None }
        requires deep { effect ≡ Effect.Indents → length (stacked self.old.levels) < self.old.cursor.position.offset }
        ensures { state_of self.new ≡ stands (state_of self.old) (stood effect t seen (state_of self.old).standing) }
    {
        self.formats = false;
        match effect {
            Effect::Indents => self.indents(t),
            Effect::Dedents => self.dedents(),
            Effect::Texts => {}
            Effect::Ends => self.ended = true,
            Effect::Other(change) => self.change(change, t, seen),
        }
    }

    // Goes on behind a token that comes next.
    pub(crate) fn hand_out(&mut self, t: Token)
        requires { answer_of (state_of self.old) ≡ Ok (Some t) }
        ensures { state_of self.new ≡ after (state_of self.old) t }
    {
        let n = t.length as usize;
        let seen = self.seen(t);
        pass(&mut self.cursor, n);
        self.blank = self.blank.behind(n);
        self.shift(effect(t.kind), t, seen);
    }
}
