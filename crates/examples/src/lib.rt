// Worked examples of lexing and of string texts.
#![tactic(auto)]

ghost use Rattle.examples.specs.Examples.{ExamplesHold};

// The worked examples hold of the definitions, every token with its place.
pub fn worked_examples_hold()
    ensures { ExamplesHold }
{}
