// Jobs and the advance (document 01, "What the unit calls"): a job goes in by value and its successor comes out, in the end with the new session.
#![tactic(auto)]

mod advance;
mod job;
mod lent;
mod types;
mod word;

pub use job::{no_job, no_session};
pub use lent::advance_lent;
pub use types::{Advanced, Job, Origin, Phase, Progress, Session, Target};
