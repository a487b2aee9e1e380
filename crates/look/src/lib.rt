// Looking at the newest checkpoint (document 01, "What the unit calls"): its restarts, and where its open part lies.
#![tactic(auto)]

mod looking;
mod types;

pub use looking::{check_half, find, look, open_part, see};
pub use types::Seen;
