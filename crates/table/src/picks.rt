ghost use Rattle.std.specs.Prelude.{◌≡◌, ◌≤◌, ◌==◌, true, false, [], ◌∷◌, length};
ghost use Rattle.scan.specs.Prefix.{begins};
ghost use Rattle.rules.specs.Picks.{admits};
ghost use Rattle.rules.specs.Scans.{empty};
ghost use Rattle.table.specs.Finds.{chosen};
ghost use Rattle.rules.specs.Table.{brace as brace_of, found_by_rule, closing as closing_of, found_line_end, escape as escape_of, first_of, folded as folded_of, general as general_of, missing as missing_of, name_byte, nested as nested_of, pick as pick_of, separator as separator_of, shape as shape_of, stray as stray_of, twice as twice_of};

use crate::steps::passed;
use crate::strings::{continuation, quotation};
use crate::walk::{OverComment, line_end, width};
use rules::{Around, Found, Layout, Miss, Rule};
use scan::{ByteClass, Gap, leading, starts};
use token::{Delimiter, StringDelimiter, TokenKind};
use utf8::character_length;

// What an identifier goes on with.
pub struct Name;

impl ByteClass for Name {
    ghost member = { name_byte };

    fn holds(b: u8) -> bool {
        matches!(b, b'a'..=b'z' | b'A'..=b'Z' | b'_' | b'0'..=b'9' | b'-')
    }
}

// The first character as far as the table tells: an ASCII one, U+FEFF, or U+FFFD for any other.
fn first(ahead: &[u8]) -> char
    ensures { result ≡ first_of ahead.now }
{
    match ahead {
        [c, ..] if c.is_ascii() => char::from(*c),
        _ if starts(ahead, &[0xEF, 0xBB, 0xBF]) => '\u{feff}',
        _ => '\u{fffd}',
    }
}

// The rule that a character picks.
fn pick(c: char) -> Rule
    ensures { result ≡ pick_of c }
{
    match c {
        ' ' | '\t' => Rule::Blank,
        '!' => Rule::Bang,
        '#' => Rule::Comment,
        '$' => Rule::Single(TokenKind::Dollar),
        '&' => Rule::Twice(b'&', TokenKind::AmpersandAmpersand),
        '(' => Rule::Single(TokenKind::ParenL),
        ')' => Rule::Closing(Delimiter::Paren, TokenKind::ParenR),
        '*' => Rule::Single(TokenKind::Asterisk),
        '+' => Rule::Plus,
        ',' => Rule::Single(TokenKind::Comma),
        '/' => Rule::Single(TokenKind::Slash),
        ':' => Rule::Colon,
        '=' => Rule::Equals,
        '?' => Rule::Single(TokenKind::QuestionMark),
        '@' => Rule::Single(TokenKind::At),
        '[' => Rule::Single(TokenKind::BracketL),
        '\\' => Rule::Escape,
        '\n' | '\r' => Rule::LineEnd,
        '\u{feff}' => Rule::ByteOrderMark,
        ']' => Rule::Closing(Delimiter::Bracket, TokenKind::BracketR),
        '`' => Rule::Quote(StringDelimiter::Backtick),
        '"' => Rule::Quote(StringDelimiter::QuoteDouble),
        '\'' => Rule::Quote(StringDelimiter::QuoteSingle),
        '{' => Rule::Single(TokenKind::BraceL),
        '|' => Rule::Twice(b'|', TokenKind::BarBar),
        '}' => Rule::Brace,
        'a'..='z' | 'A'..='Z' | '_' => Rule::Name,
        _ => Rule::Unknown,
    }
}

// A token of two characters by its second, the first of these that fits, or else what is found otherwise.
fn lex_choices(first: u8, choices: &[(u8, TokenKind)], otherwise: Found, ahead: &[u8]) -> Found
    ensures { result ≡ chosen first choices.now otherwise ahead.now }
{
    for (second, kind) in choices {
        if starts(ahead, &[first, *second]) {
            return Ok((*kind, 2));
        }
    }
    otherwise
}

// What stands where the second of two characters is missing.
fn missing(behind: &[u8]) -> Found
    ensures { result ≡ missing_of behind.now }
{
    match behind {
        [] => Err(Miss::Fails(Layout::UnexpectedEndOfToken, 1, 0)),
        [c, ..] => Err(Miss::Fails(Layout::UnexpectedCharacter, 1, character_length(*c))),
    }
}

fn twice(c: u8, kind: TokenKind, ahead: &[u8]) -> Found
    requires { empty ahead.now ≡ false }
    ensures { result ≡ twice_of c kind ahead.now }
{
    lex_choices(c, &[(c, kind)], missing(&ahead[1..]), ahead)
}

// Whether delimiters are of one shape, so that they close one another. Their variants cannot be compared without what they hold.
fn alike(one: Delimiter, other: Delimiter) -> bool
    ensures { result ≡ (shape_of one == shape_of other) }
{
    matches!(
        (one, other),
        (Delimiter::Brace, Delimiter::Brace)
            | (Delimiter::Bracket, Delimiter::Bracket)
            | (Delimiter::FormatString(_), Delimiter::FormatString(_))
            | (Delimiter::Paren, Delimiter::Paren)
    )
}

fn closing(delimiter: Delimiter, kind: TokenKind, newest: Option<Delimiter>) -> Found
    ensures { result ≡ closing_of delimiter kind newest }
{
    let newest = newest.ok_or(Miss::Fails(Layout::UnexpectedClosingDelimiter, 0, 0))?;
    if alike(newest, delimiter) {
        Ok((kind, 1))
    } else {
        Err(Miss::Fails(Layout::MismatchedClosingDelimiter, 0, 0))
    }
}

// `}}` goes on with the format string whose interpolation is the newest opener.
fn brace(newest: Option<Delimiter>, ahead: &[u8]) -> Found
    ensures { result ≡ brace_of newest ahead.now }
{
    match newest {
        Some(Delimiter::FormatString(kind)) if starts(ahead, b"}}") => continuation(kind, ahead),
        _ => closing(Delimiter::Brace, TokenKind::BraceR, newest),
    }
}

// Whether an opener or a mark is open.
pub fn nested(around: Around) -> bool
    ensures { result ≡ nested_of around }
{
    around.newest.is_some() || around.marked
}

// A line end separates, but not inside of what is open.
fn separator(around: Around) -> TokenKind
    ensures { result ≡ separator_of around }
{
    if nested(around) {
        TokenKind::Whitespace
    } else {
        TokenKind::Eol
    }
}

fn end_of_line(around: Around, ahead: &[u8]) -> Found
    ensures { result ≡ found_line_end around ahead.now }
{
    let n = line_end(ahead).ok_or(Miss::Fails(Layout::UnpairedCarriageReturn, 0, 1))?;
    Ok((separator(around), n))
}

// A backslash that no line end follows.
fn stray(behind: &[u8]) -> Found
    ensures { result ≡ stray_of behind.now }
{
    match behind {
        [] => Err(Miss::Fails(Layout::EscapeEndOfFile, 0, 1)),
        [_, ..] => Err(Miss::Fails(Layout::InvalidEscapeSequence, 0, 1)),
    }
}

// A folded line end, of `n` bytes with its backslash, and the blanks behind it.
fn folded(n: usize, ahead: &[u8]) -> Found
    requires { n ≤ length ahead.now }
    ensures { result ≡ folded_of n ahead.now }
{
    Ok((TokenKind::Whitespace, n + leading::<Gap>(&ahead[n..])))
}

// A backslash, which folds the line end behind it.
#[tactic(auto, using(crate::proofs::Escapes::escape_behind))]
fn escape(ahead: &[u8]) -> Found
    requires { begins (92 ∷ []) ahead.now ≡ true }
    ensures { result ≡ escape_of ahead.now }
{
    let (_, behind) = ahead.split_at(1);
    match line_end(behind) {
        Some(n) => folded(1 + n, ahead),
        None if starts(behind, b"\r") => Err(Miss::Fails(Layout::UnpairedCarriageReturn, 0, 2)),
        None => stray(behind),
    }
}

// What may come second, and the token that it then makes.
const BANG: [(u8, TokenKind); 2] = [(b'=', TokenKind::BangEquals), (b'~', TokenKind::BangTilde)];

const PLUS: [(u8, TokenKind); 1] = [(b'+', TokenKind::PlusPlus)];

const EQUALS: [(u8, TokenKind); 2] = [
    (b'=', TokenKind::EqualsEquals),
    (b'~', TokenKind::EqualsTilde),
];

const COLON: [(u8, TokenKind); 2] = [
    (b'=', TokenKind::ColonEquals),
    (b':', TokenKind::ColonColon),
];

// What a rule of the table finds. The rule is a value, picked by a match on characters, and then matched: a table of functions would hand out functions.
fn by_rule(rule: Rule, around: Around, ahead: &[u8]) -> Found
    requires { admits rule ahead.now ≡ true }
    ensures { result ≡ found_by_rule rule around ahead.now }
{
    match rule {
        Rule::Blank => Ok((TokenKind::Whitespace, leading::<Gap>(ahead))),
        Rule::Comment => Ok((TokenKind::Comment, passed(&OverComment, ahead))),
        Rule::Single(kind) => Ok((kind, 1)),
        Rule::ByteOrderMark => Ok((TokenKind::ByteOrderMark, 3)),
        Rule::Bang => lex_choices(b'!', &BANG, Ok((TokenKind::Bang, 1)), ahead),
        Rule::Plus => lex_choices(b'+', &PLUS, Ok((TokenKind::Plus, 1)), ahead),
        Rule::Equals => lex_choices(b'=', &EQUALS, Ok((TokenKind::Equals, 1)), ahead),
        Rule::Colon => lex_choices(b':', &COLON, Ok((TokenKind::Colon, 1)), ahead),
        Rule::Twice(c, kind) => twice(c, kind, ahead),
        Rule::Closing(delimiter, kind) => closing(delimiter, kind, around.newest),
        Rule::Brace => brace(around.newest, ahead),
        Rule::LineEnd => end_of_line(around, ahead),
        Rule::Escape => escape(ahead),
        Rule::Quote(delimiter) => quotation(delimiter, around.formats, ahead),
        Rule::Name => Ok((TokenKind::Identifier, leading::<Name>(ahead))),
        Rule::Unknown => Err(Miss::Fails(Layout::UnknownStartOfToken, 0, width(ahead))),
    }
}

// What the general table finds. What is open and what lies ahead come apart, as most rules look at one of them.
#[tactic(auto, using(rules::proofs::Picked::picked))]
pub fn general(around: Around, ahead: &[u8]) -> Found
    ensures { result ≡ general_of around ahead.now }
{
    by_rule(pick(first(ahead)), around, ahead)
}
