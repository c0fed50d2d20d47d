ghost use Rattle.std.specs.Prelude.{◌≡◌, length};
ghost use Rattle.rules.specs.Lines.{line_of_blanks, deeper as deeper_of, indentation as indentation_of, start as start_at};
ghost use Rattle.rules.specs.Scans.{is_line_over};
ghost use Rattle.lines.specs.Levels.{texts_of};

use crate::ahead::Ahead;
use crate::levels::Levels;
use crate::reads::{first, mixed, same};
use rules::{Around, Layout, Start};
use scan::{Gap, leading, starts};
use table::{at_line_end, nested};

// A place in a text: what is open there, and what lies ahead.
#[derive(Clone, Copy)]
pub(crate) struct Here<'a> {
    pub(crate) around: Around,
    pub(crate) levels: Levels<'a>,
    pub(crate) ahead: Ahead<'a>,
}

// Whether a line end comes first, or nothing does.
fn line_over(ahead: &[u8]) -> bool
    ensures { result ≡ is_line_over ahead.now }
{
    at_line_end(ahead) || ahead.is_empty()
}

// A run of blanks that is neither empty nor an open Indent, against the innermost one.
fn deeper(body: bool, innermost: &[u8], run: &[u8]) -> Start
    ensures { result ≡ deeper_of body innermost.now (length run.now) run.now }
{
    let start = first(run, innermost.len());
    if body && starts(run, innermost) {
        Start::Aligned(innermost.len())
    } else if body && mixed(start) {
        Start::Wrong(Layout::MixedLeadingWhitespace, start.len())
    } else if !body && mixed(run) {
        Start::Wrong(Layout::MixedLeadingWhitespace, run.len())
    } else if starts(run, innermost) {
        Start::Inward(run.len())
    } else {
        Start::Wrong(Layout::InconsistentLeadingWhitespace, run.len())
    }
}

impl<'a> Here<'a> {
    // A line of blanks only, of which `n` come first.
    fn blank_line(self, n: usize) -> Start
        ensures { result ≡ line_of_blanks (texts_of self.entry.levels) n self.entry.ahead.bytes.now }
    {
        if self.levels.indented() && self.ahead.leads_outward() {
            Start::Outward
        } else {
            Start::Still(n)
        }
    }

    // A run of blanks before something else.
    fn indentation(self, run: &[u8]) -> Start
        ensures { result ≡ indentation_of self.entry.around.body (texts_of self.entry.levels) (length run.now) run.now }
    {
        if same(run, self.levels.innermost()) {
            Start::Aligned(run.len())
        } else if run.is_empty() || self.levels.among(run) {
            Start::Outward
        } else {
            deeper(self.around.body, self.levels.innermost(), run)
        }
    }

    // Which rule holds where a line starts.
    pub(crate) fn start(self) -> Start
        ensures { result ≡ start_at self.entry.around (texts_of self.entry.levels) self.entry.ahead.bytes.now }
    {
        let n = leading::<Gap>(self.ahead.bytes);
        let (run, behind) = self.ahead.bytes.split_at(n);
        if nested(self.around) {
            Start::Still(n)
        } else if line_over(behind) {
            self.blank_line(n)
        } else {
            self.indentation(run)
        }
    }
}
