ghost use Rattle.std.specs.Prelude.{◌≡◌};
ghost use Rattle.token.specs.Strings.{delimiter_of, escapes_in};

// Every kind of token that is handed out.
#[derive(Clone, Copy, Debug, PartialEq, Eq)]
pub enum TokenKind {
    AmpersandAmpersand,
    Asterisk,
    At,
    Backtick,
    Bang,
    BangEquals,
    BangTilde,
    BarBar,
    BraceL,
    BraceR,
    BracketL,
    BracketR,
    ByteOrderMark,
    Colon,
    ColonColon,
    ColonEquals,
    Comma,
    Comment,
    Dedent,
    Dollar,
    Eof,
    Eol,
    Equals,
    EqualsEquals,
    EqualsTilde,
    FormatStringContinue,
    FormatStringEnd,
    FormatStringStart,
    Identifier,
    Indent,
    InterpolationEnd,
    InterpolationStart,
    ParenL,
    ParenR,
    Plus,
    PlusPlus,
    QuestionMark,
    Slash,
    StringToken,
    Text,
    Whitespace,
}

// What quotes a string.
#[derive(Clone, Copy, PartialEq, Eq, Debug)]
pub enum StringDelimiter {
    Backtick,
    QuoteDouble,
    QuoteSingle,
}

// How a string is quoted: by which character, and by three of them (`indented`) or by one.
#[derive(Clone, Copy, PartialEq, Eq, Debug)]
pub struct StringKind {
    pub delimiter: StringDelimiter,
    pub indented: bool,
}

impl StringKind {
    // What begins and ends a string of this kind.
    pub fn delimiter(self) -> &'static str
        ensures { result.now ≡ delimiter_of self }
    {
        match (self.delimiter, self.indented) {
            (StringDelimiter::Backtick, false) => "`",
            (StringDelimiter::Backtick, true) => "```",
            (StringDelimiter::QuoteDouble, false) => "\"",
            (StringDelimiter::QuoteDouble, true) => "\"\"\"",
            (StringDelimiter::QuoteSingle, false) => "'",
            (StringDelimiter::QuoteSingle, true) => "'''",
        }
    }

    // Whether a backslash escapes in it.
    pub fn processes_escape_sequences(self) -> bool
        ensures { result ≡ escapes_in self }
    {
        matches!(self.delimiter, StringDelimiter::QuoteDouble)
    }
}

// What is open until its closing counterpart comes.
#[derive(Clone, Copy, PartialEq, Eq, Debug)]
pub enum Delimiter {
    Brace,
    Bracket,
    FormatString(StringKind),
    Paren,
}
