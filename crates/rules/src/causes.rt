ghost use Rattle.std.specs.Prelude.{◌≡◌};
ghost use Rattle.rules.specs.Causes.{cause_of_layout};

use crate::found::Layout;
use token::Cause;

impl From<Layout> for Cause {
    ghost from_gives = { λ layout cause. cause ≡ cause_of_layout layout };

    fn from(layout: Layout) -> Cause {
        match layout {
            Layout::MixedLeadingWhitespace => Cause::MixedLeadingWhitespace,
            Layout::InconsistentLeadingWhitespace => Cause::InconsistentLeadingWhitespace,
            Layout::UnknownStartOfToken => Cause::UnknownStartOfToken,
            Layout::UnexpectedCharacter => Cause::UnexpectedCharacter,
            Layout::UnexpectedEndOfToken => Cause::UnexpectedEndOfToken,
            Layout::MismatchedClosingDelimiter => Cause::MismatchedClosingDelimiter,
            Layout::UnexpectedClosingDelimiter => Cause::UnexpectedClosingDelimiter,
            Layout::InvalidEscapeSequence => Cause::InvalidEscapeSequence,
            Layout::EscapeEndOfFile => Cause::EscapeEndOfFile,
            Layout::UnpairedCarriageReturn => Cause::UnpairedCarriageReturn,
            Layout::UnterminatedString => Cause::UnterminatedString,
            Layout::UnterminatedBacktick => Cause::UnterminatedBacktick,
        }
    }
}
