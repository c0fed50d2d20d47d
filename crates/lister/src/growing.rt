ghost use Rattle.std.specs.Prelude.{◌≡◌, ◌≤◌, false, IfOk, OnOk, length};
ghost use Rattle.token.specs.Told.{refusal};
ghost use Rattle.source.specs.Sources.{text_of};
ghost use Rattle.lexer.specs.Runs.{tokens_of};
ghost use Rattle.listing.specs.Lines.{ended, fault_text, laid_out, line_in};
ghost use Rattle.lister.specs.Listings.{clean, listed, tables};

use listing::write_line;
use session::Session;
use source::Source;
use stack::Stack;
use std::alloc::AllocError;
use token::{Delimiter, Fault, Span, Token};

// How many Indents and how many delimiters may be open at once.
const LEVELS: usize = 359;

const OPENERS: usize = 1_024;

// A listing that grows: the source of its tokens, a buffer with room for every line, and the lines so far.
#[derive(Drop)]
pub(crate) struct Listing<'a, 'o> {
    pub(crate) source: Source<'a>,
    pub(crate) line: &'o mut [u8],
    pub(crate) out: &'o mut Vec<u8>,
    ghost room: { 131140 ≤ length line.now },
}

impl Listing<'_, '_> {
    ghost use Rattle.lister.specs.Growing.{Appends};

    // Appends the lines of the source's tokens, and of the fault that ends them, and answers whether there was none.
    pub(crate) fn append_tokens(&mut self) -> Result<bool, AllocError>
        ensures tells { IfOk result (λ whole. whole ≡ clean (tokens_of (text_of self.old.source) tables).ending) }
        ensures appends { OnOk result (Appends (listed (text_of self.old.source) (tokens_of (text_of self.old.source) tables)) self.old self.new) }
        ensures same_reference { self.new.out.ghost_name ≡ self.old.out.ghost_name }
    {
        let mut levels = [Span::default(); LEVELS];
        let mut openers = [Delimiter::Paren; OPENERS];
        let mut session = Session::open(
            self.source,
            Stack::new(&mut levels),
            Stack::new(&mut openers),
        );
        // A match in a loop, since each of the three answers has its own way on.
        loop {
            match session.next() {
                Ok(Some(token)) => self.append(Ok(token))?,
                Ok(None) => return Ok(true),
                Err(fault) => return self.append_fault(fault),
            }
        }
    }

    // Appends the line of a fault, which ends a listing.
    pub(crate) fn append_fault(&mut self, fault: Fault) -> Result<bool, AllocError>
        ensures tells { IfOk result (λ whole. whole ≡ false) }
        ensures appends { OnOk result (Appends (ended (fault_text (refusal fault))) self.old self.new) }
        ensures same_reference { self.new.out.ghost_name ≡ self.old.out.ghost_name }
    {
        self.append(Err(fault))?;
        Ok(false)
    }

    // Appends the line of an entry. A token that is not in the text has none.
    fn append(&mut self, entry: Result<Token, Fault>) -> Result<(), AllocError>
        ensures appends { OnOk result (Appends (laid_out (line_in (text_of self.old.source) entry)) self.old self.new) }
        ensures same_reference { self.new.out.ghost_name ≡ self.old.out.ghost_name }
    {
        if let Ok(n) = write_line(&self.source, entry, self.line) {
            self.out.extend_from_slice(&self.line[..n])?;
        }
        Ok(())
    }
}
