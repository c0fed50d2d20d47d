ghost use Rattle.std.specs.Prelude.{◌≡◌, ◌≤◌};
ghost use Rattle.token.specs.Told.{told};
ghost use Rattle.source.specs.Sources.{text_of};
ghost use Rattle.survey.specs.Summaries.{counted, end_of, summary_of};

use crate::summary::Summary;
use source::{Cursor, Source};
use token::{Fault, Position};

// Admits a text and walks to its end.
pub fn survey(bytes: &[u8]) -> Result<Summary, Fault>
    ensures { told result ≡ summary_of bytes.now }
{
    let mut source = Source::new();
    source.admit(bytes)?;
    Ok(summarize(source))
}

fn summarize(source: Source) -> Summary
    ensures { result ≡ counted (text_of source.entry) }
{
    let end = end(source);
    let text = source.text();
    Summary {
        bytes: text.len(),
        lines: if text.is_empty() { 0 } else { end.line + 1 },
        end,
    }
}

// Passes every character.
fn end(source: Source) -> Position
    ensures is { result ≡ end_of (text_of source.entry) }
    ensures small { result.line ≤ 65536 }
{
    let mut cursor = Cursor::new(source);
    while cursor.advance() {}
    cursor.position()
}
