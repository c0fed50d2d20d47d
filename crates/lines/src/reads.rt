ghost use Rattle.std.specs.Prelude.{◌≡◌, ◌&&◌, reverse, take};
ghost use Rattle.std.specs.List.{list_any};
ghost use Rattle.rules.specs.Lines.{among as among_of, indented as indented_of, innermost as innermost_of, mixed as mixed_of, same as same_of};
ghost use Rattle.lines.specs.Levels.{part as part_of, texts_of};

use crate::levels::Levels;
use token::Span;

// The first bytes, as many as are wanted, or all.
pub(crate) fn first(bytes: &[u8], wanted: usize) -> &[u8]
    ensures { result.now ≡ take wanted bytes.now }
{
    &bytes[..wanted.min(bytes.len())]
}

// The part of a text over which a span stands.
fn part(text: &[u8], span: Span) -> &[u8]
    ensures { result.now ≡ part_of text.now span }
{
    let (_, rest) = text.split_at((span.offset as usize).min(text.len()));
    first(rest, span.length as usize)
}

// Whether two rows of bytes are equal: the definition's word for the library's `==`.
#[tactic(auto, using(crate::proofs::Runs::same_pointwise))]
pub(crate) fn same(a: &[u8], b: &[u8]) -> bool
    ensures { result ≡ same_of a.now b.now }
{
    a == b
}

// Whether there are both a space and a tab.
pub(crate) fn mixed(run: &[u8]) -> bool
    ensures { result ≡ mixed_of run.now }
{
    run.contains(&b' ') && run.contains(&b'\t')
}

impl<'a> Levels<'a> {
    // Whether an Indent is open.
    pub(crate) fn indented(self) -> bool
        ensures { result ≡ indented_of (texts_of self.entry) }
    {
        !self.spans.is_empty()
    }

    // The text of the innermost Indent, empty if none is open.
    pub(crate) fn innermost(self) -> &'a [u8]
        ensures { result.now ≡ innermost_of (texts_of self.entry) }
    {
        match self.spans.last() {
            Some(span) => part(self.text, *span),
            None => &[],
        }
    }

    // Whether a run is the part of the text over which some span stands: the chain alone, since the check follows it to the library's words.
    fn any_is(self, run: &[u8]) -> bool
        ensures { result ≡ list_any (λ span. same_of run.now (part_of self.entry.text.now span)) (reverse self.entry.spans.now) }
    {
        self.spans
            .iter()
            .rev()
            .any(|span| same(run, part(self.text, *span)))
    }

    // Whether a run is the text of an open Indent.
    #[tactic(auto, using(crate::proofs::Texts::among_any))]
    pub(crate) fn among(self, run: &[u8]) -> bool
        ensures { result ≡ among_of run.now (texts_of self.entry) }
    {
        self.any_is(run)
    }
}
