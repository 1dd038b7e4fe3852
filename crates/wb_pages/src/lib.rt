//! Pages of explanations: messages about lines of a script, each shown with carets under the part of the line that the message is about.
//!
//! The functions turn values into text and have no other effect. No report depends on them. The crates that use this crate write what the
//! messages say.
#![tactic(auto)]

pub mod page;
pub mod parts;
pub mod shown;
pub mod spots;
pub mod words;

pub use page::Page;
pub use parts::{Part, PartKind};
pub use shown::Shown;
pub use spots::{Span, Spot};
pub use words::Word;
