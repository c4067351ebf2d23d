// The law of a card at a worked history: its premises and its claim are met together, with Camellia itself.
#![tactic(auto)]

ghost use Rattle.worked_history.specs.Worked.{Worked};

pub fn law_is_met()
    ensures { Worked }
{}
