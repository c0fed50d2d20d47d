ghost use Rattle.lexer.specs.Examples.{ExamplesHold};

// The worked examples hold of the definitions.
pub fn lexing_examples_hold()
    ensures { ExamplesHold }
{}
