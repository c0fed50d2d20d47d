// Runs of a session's definition: tokens handed out one after another, and the laws that they keep.
#![tactic(auto)]

ghost use Rattle.runs.specs.Laws.{RunsLawful};

// Whatever is handed out from the opening of a session on keeps the laws.
pub fn runs_are_lawful()
    ensures { RunsLawful }
{}
