ghost use Rattle.std.specs.Prelude.{◌≡◌, ◌<◌, ◌≤◌, length};
ghost use Rattle.std.specs.Option.{option_map};
ghost use Rattle.std.specs.List.{prefix_len as leading_of};
ghost use Rattle.scan.specs.Classes.{gap};
ghost use Rattle.unindent.specs.Lines.{blank as is_blank, indent as indent_of, ends_with_crlf, meet as meet_of, shares, indentation as indentation_of, lines as lines_of, or_none};
ghost use Rattle.unindent.specs.Cuts.{first_line_length};

use scan::{Gap, White, common, leading};

// How long the first line is, with its line feed.
pub(crate) fn line_length(bytes: &[u8]) -> usize
    ensures is { result ≡ first_line_length bytes.now }
    ensures within { result ≤ length bytes.now }
    ensures some { 0 < length bytes.now → 0 < result }
{
    match bytes.split_inclusive(|b| *b == b'\n').next() {
        Some(line) => line.len(),
        None => 0,
    }
}

// Whether a line holds nothing but white space.
pub(crate) fn blank(line: &[u8]) -> bool
    ensures { result ≡ is_blank line.now }
{
    leading::<White>(line) == line.len()
}

// Whether a line ends in a carriage return and a line feed.
pub(crate) fn ends_crlf(line: &[u8]) -> bool
    ensures { result ≡ ends_with_crlf line.now }
{
    matches!(line, [.., b'\r', b'\n'])
}

// The leading run of spaces and tabs.
fn indent(line: &[u8]) -> &[u8]
    ensures { result.now ≡ indent_of line.now }
{
    &line[0..leading::<Gap>(line)]
}

// The longest common beginning of two runs.
fn meet<'a>(a: &'a [u8], b: &'a [u8]) -> &'a [u8]
    ensures { result.now ≡ meet_of a.now b.now }
{
    &a[0..common(a, b)]
}

// What the lines so far and one line more share.
fn share<'a>(shared: Option<&'a [u8]>, line: &'a [u8]) -> Option<&'a [u8]>
    ensures { option_map (λ x. x.now) result ≡ shares (option_map (λ x. x.now) shared.entry) line.now }
{
    if blank(line) {
        return shared;
    }
    let run = indent(line);
    Some(shared.map_or(run, |v| meet(v, run)))
}

// How long the common indentation of a text is.
pub(crate) fn indentation(text: &[u8]) -> usize
    ensures { result ≡ length (indentation_of (lines_of text.now)) }
{
    let mut shared: Option<&[u8]> = None;
    let mut rest = text;
    while let Some(line) = rest.split_inclusive(|b| *b == b'\n').next() {
        shared = share(shared, line);
        rest = &rest[line.len()..];
    }
    shared.map_or(0, |run| run.len())
}
