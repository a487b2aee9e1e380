// Recorded bench traces (document 02, A.4): a trace is checked whole, and then run on a unit of the bench.
#![tactic(auto)]

mod run;
mod starts;
mod unit;

pub use run::run_trace;

// The bench's ring and FRAM. A half of the FRAM has HALF_LENGTH bytes.
pub const PAGES: usize = 3;

pub const SLOTS: usize = 2;

pub const RING_LENGTH: usize = 96;

pub const FRAM_LENGTH: usize = 128;

pub const HALF_LENGTH: usize = 64;

// Room for the lines of the longest trace, of at most 40 bytes each.
pub const TEXT_LENGTH: usize = 163_840;
