ghost use Rattle.rules.specs.Samples.{Samples};

// The worked examples of the definition hold.
pub fn samples_hold()
    ensures { Samples }
{}
