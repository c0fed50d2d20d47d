ghost use Rattle.std.specs.Prelude.{◌≡◌, ◌&&◌, length, ◌==◌, nat_lt};
ghost use Rattle.stack.specs.Held.{held};
ghost use Rattle.lines.specs.Reaches.{reach_of};
ghost use Rattle.source.specs.Cursors.{ahead as ahead_of};
ghost use Rattle.lexer.specs.States.{around as around_of, found as found_of};
ghost use Rattle.session.specs.Sessions.{state_of};
ghost use Rattle.session.specs.Sized.{Sized};

use crate::record::Session;
use lines::{Ahead, Levels, Reach, blank_reach, rule_from};
use rules::{Around, Found};

impl<'a, 't> Session<'a, 't> {
    // What the rules see of it.
    fn around(&self) -> Around
        ensures { result ≡ around_of (state_of self.now) }
    {
        Around {
            newest: self.openers.top(),
            marked: self.mark.is_some(),
            body: self.body,
            formats: self.formats,
        }
    }

    // What the rules find.
    pub(crate) fn found(&self) -> Found
        ensures is { result ≡ found_of (state_of self.now) }
        ensures sized { Sized (state_of self.now) result }
    {
        let levels = Levels {
            text: self.cursor.source().text().as_bytes(),
            spans: self.levels.entries(),
        };
        let ahead = Ahead {
            bytes: self.cursor.rest(),
            blank: self.blank,
        };
        rule_from(self.here().column == 0, self.around(), levels, ahead)
    }

    // Whether a line starts here below an open Indent, and the blank-line scan was not made here before.
    fn may_lead_outward(&self) -> bool
        ensures { result ≡ (self.now.cursor.position.column == 0 && (nat_lt 0 (length (held self.now.levels)) && self.now.blank.length == 0)) }
    {
        self.here().column == 0 && self.levels.len() > 0 && self.blank.length == 0
    }

    // The white space that comes first.
    fn scanned(&self) -> Reach
        ensures { result ≡ reach_of (ahead_of self.now.cursor) }
    {
        blank_reach(self.cursor.rest())
    }

    // Makes the blank-line scan where it may matter, and remembers how far it reaches, so that white space is scanned once. Nothing else changes.
    pub(crate) fn look_ahead(&mut self)
        ensures { state_of self.new ≡ state_of self.old }
    {
        if self.may_lead_outward() {
            self.blank = self.scanned();
        }
    }
}
