// The unit that the bench cuts: its values, and document 01's book of what it has recorded.
#![tactic(auto)]

mod book;
pub mod values;

pub use book::{Book, Draft, Entry};
