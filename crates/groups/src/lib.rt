// The groups of a ring: a ring falls into groups with no payment between them, and a case is opened for each.
#![tactic(auto)]

mod forest;
mod label;
mod mark;
mod rows;

pub use label::label_groups;
pub use mark::mark_group;
pub use rings::{Query, Refusal};

// The ring that is asked for.
#[derive(Clone, Copy)]
pub(crate) struct Asked {
    pub query: Query,
    pub s: u16,
    pub e: u16,
}
