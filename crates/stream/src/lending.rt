ghost use Rattle.std.specs.Prelude.{◌≡◌};
ghost use Rattle.stream.specs.Lending.{lent};

use crate::lent::Lent;
use crate::sourced::TokenSource;
use token::{Fault, Token};

impl<'s, S: TokenSource> Lent<&'s mut S> {
    // A source as one that a layer can hold and give back.
    pub fn new(source: &'s mut S) -> Self
        ensures { lent result ≡ source.old }
    {
        Lent { source }
    }
}

// A lent source means what the source means.
impl<'s, S: TokenSource> TokenSource for Lent<&'s mut S> {
    ghost meaning = { λ l. S.TokenSource.meaning (lent l) };

    ghost stays = { λ a b. S.TokenSource.stays (lent a) (lent b) };

    ghost moves = { λ a b. S.TokenSource.moves (lent a) (lent b) };

    fn glance(&mut self) -> Result<Option<Token>, Fault> {
        self.source.glance()
    }

    fn next(&mut self) -> Result<Option<Token>, Fault> {
        self.source.next()
    }
}
