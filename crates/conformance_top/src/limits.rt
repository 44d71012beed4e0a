//! The limits of lines and their codes, as docs/LANGUAGE.md has them.
ghost use Rattle.std.specs.Prelude.{◌≡◌};
ghost use Rattle.line_machine.specs.declared.machine.TheConstants.{MAX_LINES, LONG_LINE, TOO_MANY_LINES};
ghost use Rattle.model_form.specs.declared.limits.TheConstants.{MAX_LINE};

/// The constants have these values: a wrong one would be refused here.
pub fn line_limits()
    ensures line { MAX_LINE ≡ 4096 }
    ensures lines { MAX_LINES ≡ 1000000 }
    ensures long { LONG_LINE ≡ 18 }
    ensures many { TOO_MANY_LINES ≡ 19 }
{}
