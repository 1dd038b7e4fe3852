//! The length of heap that a script needs, and what each shorter heap refuses first.
#![tactic(auto)]

pub mod fault;
pub mod measure;
pub mod sized_run;
pub mod sizing;

pub use fault::{SizeFault, Unsized};
pub use measure::size;
pub use sizing::Sizing;
pub use wb_basics::memory::NoMemory;
pub use wb_heap_model::heap::Shape;
pub use wb_heap_model::size::{Rise, Rises};
pub use wb_meaning::conditions::Conditions;
pub use wb_meaning::run::Why;
pub use wb_tree::script::Script;
