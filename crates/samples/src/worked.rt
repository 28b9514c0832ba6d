ghost use Rattle.samples.specs.Samples.{Samples};

// The worked examples, all of them together, computed from the rules. Does nothing of its own.
pub fn worked_examples()
    ensures { Samples }
{}
