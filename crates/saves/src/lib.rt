// The save (document 01, "What the unit calls", and document 02, A.2 and A.7): with a starting tag or with a session, a checkpoint is sealed
// into staging, and the job that stores it is answered.
#![tactic(auto)]

mod from;
mod saving;
mod types;

pub use from::{from_session, from_tag};
pub use types::{Draft, From, Given};
