ghost use Rattle.std.specs.Prelude.{◌≡◌};
ghost use Rattle.words.specs.declared.error.WordError.TheVariants.{Number, OutOfMemory};

use std::alloc::AllocError;
use std::num::ParseIntError;
use thiserror::Error;

// Why a word is refused: a part of it is no number, or too great, or memory ran out.
#[derive(Debug, Drop, Error)]
pub enum WordError {
    #[error(transparent)]
    Number(ParseIntError),
    #[error("memory allocation failed")]
    OutOfMemory,
}

impl From<ParseIntError> for WordError {
    ghost from_gives = { λ error e. e ≡ Number error };

    fn from(source: ParseIntError) -> WordError {
        WordError::Number(source)
    }
}

impl From<AllocError> for WordError {
    ghost from_gives = { λ _ e. e ≡ OutOfMemory };

    fn from(_error: AllocError) -> WordError {
        WordError::OutOfMemory
    }
}
