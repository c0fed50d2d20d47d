ghost use Rattle.std.specs.Prelude.{◌≡◌};
ghost use Rattle.token.specs.Causes.{number_of};
ghost use Rattle.unescape.specs.Numbers.{escape_number};

use crate::record::Escape;
use token::Cause;

// The cause of a fault that an escape sequence gives.
impl From<Escape> for Cause {
    ghost from_gives = { λ e c. number_of c ≡ escape_number e };

    fn from(escape: Escape) -> Cause {
        match escape {
            Escape::InvalidEscapeSequence => Cause::InvalidEscapeSequence,
            Escape::UnicodeEscapeDelimiter => Cause::UnicodeEscapeDelimiter,
            Escape::UnicodeEscapeEmpty => Cause::UnicodeEscapeEmpty,
            Escape::UnicodeEscapeLength => Cause::UnicodeEscapeLength,
            Escape::UnicodeEscapeRange => Cause::UnicodeEscapeRange,
            Escape::UnicodeEscapeCharacter => Cause::UnicodeEscapeCharacter,
            Escape::UnicodeEscapeUnterminated => Cause::UnicodeEscapeUnterminated,
        }
    }
}
