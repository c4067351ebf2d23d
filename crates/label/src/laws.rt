// The theorem about labels and their texts.
ghost use Rattle.label.specs.Faithful.{Faithful};

pub fn faithful()
    ensures { Faithful }
{}
