//! Laws of draws and of every document, and examples of documents.

ghost use Rattle.trial_maker.specs.Examples.{FirstNumber, FirstDraw, FirstGuard, FirstGoal, FirstFault, LeastSeed, SeedSeven, GreatestSeed};
ghost use Rattle.trial_maker.specs.TrialLaws.{DrawsStayBelow, NumbersFit, LinksAreNumbered, FirstGuardsAreFree, CostsAreSmall, SetupIsCounted, TicksAreCounted};

/// What is true of draws, and of the document of every seed.
pub fn trial_laws()
    ensures below { DrawsStayBelow }
    ensures fit { NumbersFit }
    ensures numbered { LinksAreNumbered }
    ensures free { FirstGuardsAreFree }
    ensures costs { CostsAreSmall }
    ensures setup { SetupIsCounted }
    ensures ticks { TicksAreCounted }
{}

/// The first numbers and some lines of the document of seed 0, and three whole documents by their checksums.
pub fn trial_examples()
    ensures number { FirstNumber }
    ensures draw { FirstDraw }
    ensures guard { FirstGuard }
    ensures goal { FirstGoal }
    ensures fault { FirstFault }
    ensures least { LeastSeed }
    ensures seven { SeedSeven }
    ensures greatest { GreatestSeed }
{}
