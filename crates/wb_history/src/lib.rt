//! What happened in a run, for the crates that explain or draw the run. No theorem is about this history, and no report depends on it.
//! Nothing here is text for people, and nothing here looks at a machine: `wb_watch` watches a run, and says in plain values what each
//! machine turn did.
//!
//! A `History` keeps:
//!
//! - `Attempts`: each attempt, with the line and the statement that made it;
//! - `Lives`: each cell: the lines at which it was made, grown, pushed, popped and moved, the pointer last set to it, and how it ended;
//! - `ItemsOnStack`: the items on the cleanup stack, each with where it was pushed;
//! - `Traps`: the TRAPs that are open, with their lines; and each leave, with the TRAP that caught it;
//! - `Marks`: the heap marks that are open, with their lines and the leaves that skipped their ends;
//! - `Views`: which cell's text each view shows;
//! - `Writes`: for each line that writes a pointer, what the line wrote last;
//! - `WordUses`: for each line that stores or loads a word of a cell, what the line stored or loaded last;
//! - `Calls`: which bodies run, and the call paths to pushed items, to leaves and to the run's end;
//! - `Course`: if a picture is wanted, each part of each cell's life, and a few numbers over time.
//!
//! When the run is over, `WatchedRun` adds the run's outcome. For a run that panicked, `WatchedRun` also adds what raised the panic, and
//! which pointer, values or cells the panic is about. `Blocks` isn't kept: it helps the watcher to know which TRAPs a machine turn ended.
//!
//! The memory for a history is bounded, and a life takes a few words. Of the attempts past the first 100,000, only those that the rule
//! names are kept; `Keep` can add the rises, or all attempts. Past 100,000 lives, a new life replaces the newest life at its place. Past
//! 100,000 calls, no new call path is kept.
#![tactic(auto)]

mod attempts;
mod blocks;
mod bodies;
mod calls;
mod checks;
mod course;
mod history;
mod items;
mod lines;
mod lives;
mod makers;
mod marks;
mod moments;
mod operands;
mod parameters;
mod pointer_faults;
mod raiser;
mod runs;
mod series;
mod statements;
mod traps;
mod values;
mod views;
mod word_uses;
mod writes;

pub use attempts::{AttemptMade, Attempts, FailedCounts, Keep};
pub use blocks::Blocks;
pub use bodies::{Bodies, BodyKind, BodyOfScript};
pub use calls::{Calls, Stay};
pub use checks::Counted;
pub use course::{Course, NEVER, Part, PartEnd};
pub use history::History;
pub use items::{ItemOnStack, ItemsOnStack, Popped, Taken};
pub use lines::{ScriptFile, ScriptLines};
pub use lives::{By, End, Ended, Life, Lives, Origin};
pub use makers::Maker;
pub use marks::{Marks, OpenMark};
pub use moments::{Held, Moment, ShortLine};
pub use operands::{CellName, MOST_OPERANDS, Operand, operand_at};
pub use parameters::RunParameters;
pub use pointer_faults::{PointerFault, PointerState, is_same_field, is_same_pointer};
pub use raiser::{Raised, Raiser};
pub use runs::{EndOfRun, WatchedRun};
pub use series::{Change, Series};
pub use statements::{NULL, Pointers, Variable, edited_by, pointers_of, target_of};
pub use traps::{Leave, OpenTrap, Traps};
pub use values::{Meant, Values};
pub use views::Views;
pub use word_uses::{WordUse, WordUses};
pub use writes::{NullOf, PointerWrite, Writes};
