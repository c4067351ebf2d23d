// The law of a card over every list of calls, for every kind of engine and every store that keep their promises.
#![tactic(auto)]

ghost use Rattle.law.specs.Law.{RefusedExactly, LabelTells, ReadsBack, ChangeCounted, HostsAgree, HandedOver};
ghost use Rattle.law.specs.Runs.{Of, Between, Every};

// The law whole.
pub fn law_holds()
    ensures { Every }
{}

// Its points, each by name.
pub fn points_hold()
    ensures refused_exactly { Of (λ M N. RefusedExactly M) }
    ensures label_tells { Of LabelTells }
    ensures reads_back { Of ReadsBack }
    ensures change_counted { Of ChangeCounted }
    ensures hosts_agree { Between HostsAgree }
    ensures handed_over { Between HandedOver }
{}
