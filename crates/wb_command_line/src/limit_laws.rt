//! The values of the options' limits. Definitions and code use each limit by its name, and so they follow any change of its value. The
//! values that `docs/REPORTS.md` states are laws here. Each law is the contract of a function that does nothing, so that checking the
//! function proves the law.

ghost use Rattle.std.specs.Prelude.{◌≡◌};
ghost use Rattle.wb_command_line.specs.declared.command_line.following.TheConstants.{DEFAULT_FOLLOWED, MOST_FOLLOWED};
ghost use Rattle.wb_command_line.specs.declared.command_line.set_list.TheConstants.{MOST_NUMBERS};
ghost use Rattle.wb_command_line.specs.declared.command_line.sets.TheConstants.{DEFAULT_STATES, LEAST_STATES};
ghost use Rattle.wb_command_line.specs.declared.command_line.sets.TheConstants.{MOST_STATES, MOST_TOGETHER};

/// The most attempts that may fail together, both with `--failures` and in the list of `--set`.
pub fn set_limits_are()
    ensures together { MOST_TOGETHER ≡ 8 }
    ensures listed { MOST_NUMBERS ≡ 256 }
{}

/// How many states `--sets` may meet: the default, the least value and the greatest value of `--states`.
pub fn state_limits_are()
    ensures default { DEFAULT_STATES ≡ 100_000 }
    ensures least { LEAST_STATES ≡ 1 }
    ensures most { MOST_STATES ≡ 10_000_000 }
{}

/// How many steps `--follow` writes of a run's beginning, and how many of its end: the default and the greatest value of `--follow-steps`.
pub fn followed_limits_are()
    ensures default { DEFAULT_FOLLOWED ≡ 1000 }
    ensures most { MOST_FOLLOWED ≡ 1_000_000 }
{}
