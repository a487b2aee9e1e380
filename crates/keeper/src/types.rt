// What power-up answers (document 01, "What the unit calls"). specs/View.antt says what it stands for.
use jobs::Job;

// The job that a power-up begins, and the secret part's length.
#[derive(Clone, Copy)]
pub struct PoweredUp {
    pub job: Job,
    pub length: usize,
}
