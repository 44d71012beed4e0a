//! How long a line of a trace may be.

ghost use Rattle.std.specs.Prelude.{◌≡◌};
ghost use Rattle.trace_text.specs.declared.limits.TheConstants.{MAX_TRACE_LINE};

/// The most bytes of a line of a printed trace.
pub const MAX_TRACE_LINE: usize = 400_000;

/// The limit by its number.
pub fn limit_is_fixed()
    ensures line { MAX_TRACE_LINE ≡ 400000 }
{}
