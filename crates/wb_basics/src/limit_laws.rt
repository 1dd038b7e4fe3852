//! Laws that fix the value of each limit. Definitions and code cite a limit by its name, so a changed value would go unnoticed there. The
//! laws here state the values that `docs/LANGUAGE.md` and `docs/REPORTS.md` give. Each law is the contract of a function that does nothing,
//! so the gate (`./test`) proves the law.

ghost use Rattle.std.specs.Prelude.{◌≡◌};
ghost use Rattle.wb_basics.specs.declared.limits.TheConstants.{CEILING, LARGEST_REQUEST, MOST_UNITS, MOST_TURNS};
ghost use Rattle.wb_basics.specs.declared.limits.TheConstants.{MOST_FRAMES, LARGEST_BUDGET, DEFAULT_BUDGET};
ghost use Rattle.wb_basics.specs.declared.limits.TheConstants.{LARGEST_MINIMUM, DEFAULT_MINIMUM, SMALLEST_STEP};
ghost use Rattle.wb_basics.specs.declared.limits.TheConstants.{LARGEST_STEP, DEFAULT_STEP, LONGEST_SCRIPT};
ghost use Rattle.wb_basics.specs.declared.limits.TheConstants.{LONGEST_LITERAL, LONGEST_NAME, NINE_DIGITS};
ghost use Rattle.wb_basics.specs.declared.limits.TheConstants.{MOST_PROCEDURES, MOST_CLASSES, MOST_FIELDS, MOST_EXTRA};
ghost use Rattle.wb_basics.specs.declared.limits.TheConstants.{MOST_PARAMETERS, MOST_LOCALS, DEEPEST_BLOCK};
ghost use Rattle.wb_basics.specs.declared.limits.TheConstants.{LARGEST_BUFFER, LONGEST_PRINTED};

/// The limits of a script, in the order of "Limits" in `docs/LANGUAGE.md`.
pub fn script_limits_are()
    ensures script { LONGEST_SCRIPT ≡ 65_536 }
    ensures name { LONGEST_NAME ≡ 32 }
    ensures classes { MOST_CLASSES ≡ 64 }
    ensures fields { MOST_FIELDS ≡ 16 }
    ensures extra { MOST_EXTRA ≡ 65_536 }
    ensures procedures { MOST_PROCEDURES ≡ 256 }
    ensures parameters { MOST_PARAMETERS ≡ 4 }
    ensures locals { MOST_LOCALS ≡ 32 }
    ensures blocks { DEEPEST_BLOCK ≡ 16 }
    ensures buffer { LARGEST_BUFFER ≡ 256 }
    ensures numeral { NINE_DIGITS ≡ 999_999_999 }
    ensures literal { LONGEST_LITERAL ≡ 65_536 }
{}

/// The limits of a run, and of what the run's statements may request.
pub fn run_limits_are()
    ensures frames { MOST_FRAMES ≡ 128 }
    ensures request { LARGEST_REQUEST ≡ 1_048_576 }
    ensures text { MOST_UNITS ≡ 524_286 }
    ensures turns { MOST_TURNS ≡ 1_048_576 }
    ensures printed { LONGEST_PRINTED ≡ 80 }
{}

/// The limits of heap lengths and of option values, as `docs/REPORTS.md` gives them.
pub fn option_limits_are()
    ensures ceiling { CEILING ≡ 16_777_216 }
    ensures budget { LARGEST_BUDGET ≡ 1_000_000 }
    ensures default_budget { DEFAULT_BUDGET ≡ 10_000 }
    ensures minimum { LARGEST_MINIMUM ≡ 1_048_576 }
    ensures default_minimum { DEFAULT_MINIMUM ≡ 4096 }
    ensures smallest_step { SMALLEST_STEP ≡ 16 }
    ensures largest_step { LARGEST_STEP ≡ 1_048_576 }
    ensures default_step { DEFAULT_STEP ≡ 4096 }
{}
