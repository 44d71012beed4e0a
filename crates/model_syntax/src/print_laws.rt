//! What is printed of a model is read as that model.

ghost use Rattle.model_syntax.specs.RoundTrip.{JoinedAreTokens, PrintedLinesAreWhole, PrintedReadsBack};

/// Lexemes that are joined, as in a printed line, are read as they were.
pub fn joined_are_tokens()
    ensures { JoinedAreTokens }
{}

/// The lines of a printed model, read one after the other, give the model; and no line's end is in a line, so that they are
/// the lines of the printed text.
pub fn printed_models_read_back()
    ensures back { PrintedReadsBack }
    ensures whole { PrintedLinesAreWhole }
{}
