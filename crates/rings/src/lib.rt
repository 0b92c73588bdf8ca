// Rings of a dated payment table.
// A customer's calls are re-exported here, and the two limits that arrays of the parts above have. Three modules are
// for these parts: the checks that calls share, choices without a branch, and the starts of a range.
#![tactic(auto)]

mod adjacency;
pub mod checks;
pub mod choice;
mod frame;
mod heads;
mod histogram;
mod incident;
mod limits;
mod pairs;
mod payments;
mod peel;
mod prune;
mod recalling;
mod refusal;
mod ring;
mod scan;
mod settle;
mod slices;
pub mod starts;
mod supporters;
mod table;
mod times;
mod windows;

pub use frame::Frame;
pub use limits::{ACCOUNTS, QUEUE};
pub use payments::Payments;
pub use recalling::recall;
pub use refusal::{Place, Refusal};
pub use ring::window_ring;
pub use table::{check_table, rows_before};
pub use times::core_times;
pub use windows::minimal_windows;

// What a query asks of a ring: each account met has at least k distinct others.
#[derive(Clone, Copy)]
pub struct Query {
    pub k: u16,
}
