//! What the output of `--help` begins with: what a command does, an example, and the exit statuses.

/// The top of the program's own help.
pub(crate) const BEGIN: &str = "Runs scripts against a simulated heap whose allocations may fail

Begin with a script, a text file with one statement per line:

    proc main
        ptr name
        alloc name 10
    end

`workbench run FILE` runs it and reports its leaks; `workbench check FILE` finds how long the heap must be, and \
which failed allocation leaks or panics; `workbench lengths FILE` finds the lengths of heap in which it leaks or \
panics; `workbench sweep --every FILE` makes every n-th allocation fail, `workbench sweep --persistent FILE` all \
from one on, `workbench sweep --pairs FILE` any two, `workbench sweep --failures 3 FILE` any three, and `workbench \
sweep --sets FILE` any number of them; `workbench sweep --all FILE` tells of each allocation whose failure leaks or \
panics. `workbench help run` lists the options, docs/LANGUAGE.md explains each line of a script, and examples/ has \
scripts to learn from.";

/// The top of a subcommand's help, by the subcommand's name.
pub(crate) fn long_about(name: &str) -> &'static str {
    match name {
        "run" => RUN,
        "size" => SIZE,
        "lengths" => LENGTHS,
        "sweep" => SWEEP,
        _ => CHECK,
    }
}

const RUN: &str = "Runs a script once and reports

With --follow: also writes the run to standard error, a line for each step, with what it does to the heap and to the \
cleanup stack; of a long run the first steps and the last, or with --follow-around those around an attempt

Example: workbench run --fail 3 examples/leak-under-failure.oom
Example: workbench run --fail-from 3 examples/album-leaks.oom
Example: workbench run --set 3,4,5 examples/loader-leaks.oom
Example: workbench run --follow examples/leak.oom
Example: workbench run --moving examples/item-names-the-old-cell.oom

Exit status: 0 nothing found, 1 a panic or a leak, 2 the script is refused, 3 the run was cut, 4 no memory, 5 \
reading or writing failed, 6 command line";

const SIZE: &str = "Finds how long the heap must be, and what shorter heaps refuse

Example: workbench size examples/holes.oom

Exit status: 0 the length is reported, 2 the script is refused, 3 the run was cut, 4 no memory, 5 reading or writing \
failed, 6 command line";

const LENGTHS: &str = "Finds how the run ends in a heap of every length

Lengths go from 0 to 16,777,216 bytes. If the script leaks or panics at one of them, the run at the least of these \
comes last

Example: workbench lengths examples/second-phase-leaks.oom

Exit status: 0 no length leaks or panics, 1 one does, 2 the script is refused, 3 a run was cut, 4 no memory, 5 \
reading or writing failed, 6 command line";

const SWEEP: &str = "Finds the first attempt whose failure leaks or panics

With --every: finds the least n for which the script leaks or panics when every n-th attempt fails
With --persistent: finds the least n for which it does when attempt n and all later ones fail
With --pairs: finds the same; and if no single failure leaks or panics, finds the least pair of attempts i < j, in \
order of i and then of j, for which the script leaks or panics when both fail
With --failures K: finds the same as with --pairs, and goes on from two attempts to three, and so on up to K
With --sets: goes on so until no set of attempts is left, of any size, or more states were met than --states allows
With --all, alone, with --every or with --persistent: tells of each attempt, or each n, for which the script leaks, \
panics or is cut
With --ends, alone, with --every or with --persistent: tells of each how the run ends, also where it is fine
With --from I or --to J: tries attempts from I to J alone, or each n from I to J; of pairs and larger sets those \
whose first number is one of these
With --moving: finds the same in a heap in which each cell that grows moves, also where it could stay

Example: workbench sweep examples/second-phase-leaks.oom
Example: workbench sweep --all examples/second-phase-leaks.oom
Example: workbench sweep --ends examples/second-phase-leaks.oom
Example: workbench sweep --every examples/fallback-leaks.oom
Example: workbench sweep --persistent examples/fallback-leaks.oom
Example: workbench sweep --pairs examples/clean-up-fails.oom
Example: workbench sweep --failures 3 examples/save-leaks.oom
Example: workbench sweep --sets examples/save-leaks-mended.oom
Example: workbench sweep --pairs --from 1 --to 2 examples/clean-up-fails.oom

Exit status: 0 no failure that was tried leaks or panics, 1 one does, 2 the script is refused, 3 a run was cut, 4 no \
memory, 5 reading or writing failed, 6 command line";

const CHECK: &str = "Runs size, then sweep

With --every: finds the least n for which the script leaks or panics when every n-th attempt fails
With --persistent: finds the least n for which it does when attempt n and all later ones fail
With --pairs: finds the same; and if no single failure leaks or panics, finds the least pair of attempts i < j, in \
order of i and then of j, for which the script leaks or panics when both fail
With --failures K: finds the same as with --pairs, and goes on from two attempts to three, and so on up to K
With --sets: goes on so until no set of attempts is left, of any size, or more states were met than --states allows
With --all, alone, with --every or with --persistent: tells of each attempt, or each n, for which the script leaks, \
panics or is cut
With --ends, alone, with --every or with --persistent: tells of each how the run ends, also where it is fine
With --moving: finds the same in a heap in which each cell that grows moves, also where it could stay

Example: workbench check examples/second-phase-leaks.oom
Example: workbench check --all examples/second-phase-leaks.oom
Example: workbench check --every examples/fallback-leaks.oom
Example: workbench check --persistent examples/fallback-leaks.oom
Example: workbench check --pairs examples/clean-up-fails.oom
Example: workbench check --failures 3 examples/save-leaks.oom
Example: workbench check --sets examples/save-leaks-mended.oom
Example: workbench check --sets --moving examples/item-names-the-old-cell-mended.oom

Exit status: 0 no failure that was tried leaks or panics, 1 one does, 2 the script is refused, 3 a run was cut, 4 no \
memory, 5 reading or writing failed, 6 command line";
