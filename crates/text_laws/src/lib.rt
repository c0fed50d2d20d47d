// The laws of string texts, and worked examples, each as the promise of a function.

#![tactic(auto)]

ghost use Rattle.text_laws.specs.Examples.{ExamplesHold};
ghost use Rattle.text_laws.specs.Laws.{StringTextsLawful};

// Unindenting removes the longest run that the lines share, a text without backslashes is its own unescaping, and every string text is UTF-8.
pub fn string_texts_are_lawful()
    ensures { StringTextsLawful }
{}

// The worked examples hold of the definitions.
pub fn string_examples_hold()
    ensures { ExamplesHold }
{}
