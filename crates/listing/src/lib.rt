// The listing of a range's rings, the longest list there can be, and the listing as text.
#![tactic(auto)]

mod list;
mod longest;
mod program;

pub use list::list_rings;
pub use longest::longest_list;
pub use program::{MOST_OUTPUT, list_text};
pub use rings::{Query, Refusal};

// What Listing finds: how many rings, the sum of their rows, and how many windows have no ring.
#[derive(Clone, Copy)]
pub struct Listed {
    pub count: usize,
    pub sum: u64,
    pub empty: u64,
}

// A refusal as 01 prints it and as C gets it: its number, and its input line, 0 where it has none. The kinds of text's
// and of rings' refusals end here, since both are told as numbers.
#[derive(Clone, Copy)]
pub struct Refused {
    pub number: u32,
    pub line: usize,
}
