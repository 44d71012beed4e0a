//! A law of the lines of a trace, and examples of their text.

ghost use Rattle.trace_text.specs.LineExamples.{LongStandsAlone, LongStandsWithOthers, RouteOfValve, TickOfValve, WorldOfValve};
ghost use Rattle.trace_text.specs.TraceLines.{TellsLinesApart};

/// What is true of the lines of any well-formed model.
pub fn line_laws()
    ensures told_apart { TellsLinesApart }
{}

/// The text of ticks, worlds and routes.
pub fn line_examples()
    ensures tick { TickOfValve }
    ensures world { WorldOfValve }
    ensures route { RouteOfValve }
    ensures long_alone { LongStandsAlone }
    ensures long_with_others { LongStandsWithOthers }
{}
