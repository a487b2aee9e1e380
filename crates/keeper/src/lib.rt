// The checkpoint keeper (document 01): power-up and wipe. The save is in the crate `saves`, looking in the crate `look`, and what jobs and
// sessions are and the advance in the crate `jobs`. The names of all three are passed on.
#![tactic(auto)]

mod buffers;
mod resuming;
mod types;

pub use buffers::wipe;
pub use jobs::{Advanced, Job, Origin, Phase, Progress, Session, advance_lent, no_job, no_session};
pub use look::{Seen, look, open_part, see};
pub use memories::Memories;
pub use resuming::{power_up, power_up_check};
pub use saves::{Draft, From, Given, from_session, from_tag};
pub use types::PoweredUp;
