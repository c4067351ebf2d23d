// One fact about the definitions that contracts cite: their values at samples from the standards.
#![tactic(auto)]

ghost use Rattle.samples.specs.Samples.{Samples};

pub fn definitions_hold()
    ensures { Samples }
{}
