//! What lines do, said of models: one outcome each, and a good model stays good. What the codes of repairs mean.

ghost use Rattle.model_syntax.specs.Kept.{LinesKeepModelsGood};
ghost use Rattle.model_syntax.specs.Lines.{LeadOneWay};
ghost use Rattle.model_syntax.specs.RepairLaws.{ChainsAreTested, CodesKeepRules, CodesRise, FirstVersionAsBefore, RulesGiveNoCode};

/// A line leads to one outcome: it is refused with one code, or makes one model of the one before.
#[tactic(auto, using(crate::proofs::OneWay::lead_one_way))]
pub fn lines_lead_one_way()
    ensures { LeadOneWay }
{}

/// What a line makes of a model that is well formed and uses each of its commands is such a model again.
#[tactic(auto, using(crate::proofs::Kept::lines_keep_models_good))]
pub fn lines_keep_models_good()
    ensures { LinesKeepModelsGood }
{}

/// The least code of a move is answered. A move keeps the rules of repairs of its model's version exactly where none of their codes
/// applies. In the first version these are the codes that there were without chains.
pub fn repairs_have_codes()
    ensures rise { CodesRise }
    ensures tested { ChainsAreTested }
    ensures kept { CodesKeepRules }
    ensures none { RulesGiveNoCode }
    ensures first { FirstVersionAsBefore }
{}
