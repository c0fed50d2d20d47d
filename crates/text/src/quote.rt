ghost use Rattle.std.specs.Prelude.{◌≡◌, ◌≤◌, length, Some, None, MatchOption};
ghost use Rattle.text.specs.Quotes.{first_of, literal as literal_of, quotes};

use crate::literal::Literal;
use scan::starts;
use token::{StringDelimiter, StringKind};

// The quotes, in the order in which they are tried.
const QUOTES: [StringKind; 4] = [
    StringKind {
        delimiter: StringDelimiter::QuoteDouble,
        indented: true,
    },
    StringKind {
        delimiter: StringDelimiter::QuoteDouble,
        indented: false,
    },
    StringKind {
        delimiter: StringDelimiter::QuoteSingle,
        indented: true,
    },
    StringKind {
        delimiter: StringDelimiter::QuoteSingle,
        indented: false,
    },
];

// The first kind of quotes whose delimiter bytes begin with.
fn quote(bytes: &[u8]) -> Option<StringKind>
    ensures { result ≡ first_of quotes bytes.now }
{
    QUOTES
        .iter()
        .copied()
        .find(|kind| starts(bytes, kind.delimiter().as_bytes()))
}

impl<'a> Literal<'a> {
    // The literal that a lexeme is, if it is one.
    pub(crate) fn of(lexeme: &'a str) -> Option<Self>
        requires { length lexeme.now ≤ 65536 }
        ensures { MatchOption result (literal_of lexeme.now ≡ None) (λ l. literal_of lexeme.now ≡ Some (l.kind, l.inner.now)) }
    {
        let kind = quote(lexeme.as_bytes())?;
        let delimiter = kind.delimiter();
        let inner = lexeme.strip_prefix(delimiter)?.strip_suffix(delimiter)?;
        Some(Literal { kind, inner })
    }
}
