//! The laws of trails, clauses, learning and the end.

ghost use Rattle.clash_analysis.specs.Laws.{FalseClausesAreLearned, LaterWeighsLess, LearnedNarrows, LearnedWeighsLess, LostPairsAreLearned, MarksAreFew, MoreLevelsWeighLess, NothingIsLeft, OpenLiteralsFollow, OthersStayApart, PopsBack, PushesRight, ResolvedIsLearned, TrailsFit, UndoneStaysApart};

/// What a trail keeps.
pub fn trails()
    ensures push { PushesRight }
    ensures pop { PopsBack }
    ensures fit { TrailsFit }
{}

/// What a visit of a clause says, and a pair of the question that is lost.
pub fn clauses()
    ensures open { OpenLiteralsFollow }
    ensures shut { FalseClausesAreLearned }
    ensures lost { LostPairsAreLearned }
{}

/// What becomes of a learned clause.
pub fn learning()
    ensures resolved { ResolvedIsLearned }
    ensures others { OthersStayApart }
    ensures undone { UndoneStaysApart }
    ensures narrows { LearnedNarrows }
    ensures nothing { NothingIsLeft }
{}

/// Why the search ends.
pub fn ends()
    ensures later { LaterWeighsLess }
    ensures level { MoreLevelsWeighLess }
    ensures learned { LearnedWeighsLess }
    ensures marks { MarksAreFew }
{}
