//! What the definitions say together, and the numbers that they name.

ghost use Rattle.std.specs.Prelude.{◌≡◌};
ghost use Rattle.cca_base.specs.Laws.{FormulasAreWithin};
ghost use Rattle.cca_base.specs.declared.limits.TheConstants.{MAX_COMPONENTS, MAX_CHOICES, MAX_VARIABLES, MAX_RULES, MAX_MOVES, MAX_FAILURES, MAX_DEPTH, MAX_NAME, MAX_COST, MAX_WEIGHT, MAX_WAYS, MAX_BOUND, MAX_PLAN, MAX_ROWS, MAX_SUBJECTS};
ghost use Rattle.cca_base.specs.declared.codes.TheConstants.{MALFORMED, NAME_UNKNOWN, NAME_REPEATED, LIMIT, AMBIGUOUS, INTO_BROKEN, UNMARKED_EXIT, TWO_MENDS, CLASH, WAYS, CYCLE, DEEP, NOT_SENSED, BROKEN_GOAL, REPEATED_PAIR, MIRRORED, ENDS_EARLY, LONG_LINE, TOO_MANY_LINES, REPAIR_CYCLE, MANY, UNMATCHED};

/// `holds_at` may be asked about a model's formulas in all its states and worlds.
pub fn formulas_are_within()
    ensures { FormulasAreWithin }
{}

/// The limits of a model and of what is computed of it.
pub fn limits_are_fixed()
    ensures components { MAX_COMPONENTS ≡ 256 }
    ensures choices { MAX_CHOICES ≡ 64 }
    ensures variables { MAX_VARIABLES ≡ 256 }
    ensures rules { MAX_RULES ≡ 512 }
    ensures moves { MAX_MOVES ≡ 4096 }
    ensures failures { MAX_FAILURES ≡ 4096 }
    ensures depth { MAX_DEPTH ≡ 32 }
    ensures name { MAX_NAME ≡ 32 }
    ensures cost { MAX_COST ≡ 1000000 }
    ensures weight { MAX_WEIGHT ≡ 1000000 }
    ensures ways { MAX_WAYS ≡ 256 }
    ensures bound { MAX_BOUND ≡ 9223372036854775807 }
    ensures plan { MAX_PLAN ≡ 10000 }
    ensures rows { MAX_ROWS ≡ 65536 }
    ensures subjects { MAX_SUBJECTS ≡ 65535 }
{}

/// The numbers of refusals.
pub fn codes_are_fixed()
    ensures malformed { MALFORMED ≡ 1 }
    ensures name_unknown { NAME_UNKNOWN ≡ 2 }
    ensures name_repeated { NAME_REPEATED ≡ 3 }
    ensures limit { LIMIT ≡ 4 }
    ensures ambiguous { AMBIGUOUS ≡ 5 }
    ensures into_broken { INTO_BROKEN ≡ 6 }
    ensures unmarked_exit { UNMARKED_EXIT ≡ 7 }
    ensures two_mends { TWO_MENDS ≡ 8 }
    ensures clash { CLASH ≡ 9 }
    ensures ways { WAYS ≡ 10 }
    ensures cycle { CYCLE ≡ 11 }
    ensures deep { DEEP ≡ 12 }
    ensures not_sensed { NOT_SENSED ≡ 13 }
    ensures broken_goal { BROKEN_GOAL ≡ 14 }
    ensures repeated_pair { REPEATED_PAIR ≡ 15 }
    ensures mirrored { MIRRORED ≡ 16 }
    ensures ends_early { ENDS_EARLY ≡ 17 }
    ensures long_line { LONG_LINE ≡ 18 }
    ensures too_many_lines { TOO_MANY_LINES ≡ 19 }
    ensures repair_cycle { REPAIR_CYCLE ≡ 21 }
    ensures many { MANY ≡ 22 }
    ensures unmatched { UNMATCHED ≡ 23 }
{}
