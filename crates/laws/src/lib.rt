// The law on runs: whatever calls come in whatever order.
#![tactic(auto)]

ghost use Rattle.laws.specs.Laws.{EveryRunLawful};

use stream::TokenSource;

// Every run of calls on a session, and on a layer over a source of this kind, keeps the law.
pub fn every_run_is_lawful<S: TokenSource>(_source: &S)
    ensures { EveryRunLawful S.TokenSource.meaning S.TokenSource.stays S.TokenSource.moves }
{}
