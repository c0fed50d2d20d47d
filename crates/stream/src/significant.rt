ghost use Rattle.std.specs.Prelude.{◌≡◌};
ghost use Rattle.stream.specs.Layers.{LayerMoves, LayerStays, layered};

use crate::layer::Significant;
use crate::past::{glance_past, next_past};
use crate::sourced::TokenSource;
use token::{Fault, Token};

impl<S: TokenSource> Significant<S> {
    // Over a source, of which nothing is taken yet.
    pub fn new(below: S) -> Self
        ensures { result.below ≡ below }
    {
        Significant { below }
    }
}

// The layer means what the source below means, without Whitespace. Its glance may take Whitespace from below: how much is open.
impl<S: TokenSource> TokenSource for Significant<S> {
    ghost meaning = { layered S.TokenSource.meaning };

    ghost stays = { LayerStays S.TokenSource.meaning S.TokenSource.stays S.TokenSource.moves };

    ghost moves = { LayerMoves S.TokenSource.meaning S.TokenSource.stays S.TokenSource.moves };

    fn glance(&mut self) -> Result<Option<Token>, Fault> {
        glance_past(&mut self.below)
    }

    fn next(&mut self) -> Result<Option<Token>, Fault> {
        next_past(&mut self.below)
    }
}
