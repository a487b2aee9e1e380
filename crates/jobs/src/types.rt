// What the calls take and answer (document 01, "What the unit calls"). specs/View.antt says what each stands for.
use octets::limits::{NONCE_LENGTH, SLOT_LENGTH, TAG_LENGTH};

// The next store of a job: the page to erase, or the number of the word to copy.
#[derive(Clone, Copy)]
pub enum Phase {
    EraseFirst(usize),
    Words(usize),
    Record,
    EraseAfter(usize),
    Done,
}

// Which start a job came from.
#[derive(Clone, Copy)]
pub enum Origin {
    Save,
    PowerUp,
}

// Where a job stores: a half, and a slot of a page for the record.
#[derive(Clone, Copy)]
pub struct Target {
    pub half: usize,
    pub page: usize,
    pub slot: usize,
}

// A checkpoint on its way into the memories. Half 0 is A and half 1 is B; `length` is the checkpoint's in bytes; page and
// slot are the record's target; tag, restarts and packet number are the checkpoint's own.
#[derive(Clone, Copy)]
pub struct Job {
    pub phase: Phase,
    pub origin: Origin,
    pub half: usize,
    pub length: usize,
    pub page: usize,
    pub slot: usize,
    pub nonce: [u8; NONCE_LENGTH],
    pub tag: [u8; TAG_LENGTH],
    pub restarts: usize,
    pub packet: usize,
}

// The newest record and where it stands, and its checkpoint's tag, restarts and packet number.
#[derive(Clone, Copy)]
pub struct Session {
    pub page: usize,
    pub slot: usize,
    pub latest: [u8; SLOT_LENGTH],
    pub tag: [u8; TAG_LENGTH],
    pub restarts: usize,
    pub packet: usize,
}

// How far an advance brought a job: it goes on, or it has ended, with the new session.
#[derive(Clone, Copy)]
pub enum Progress {
    GoingOn,
    Saved(Session),
    Restored(Session),
}

// What an advance answers: how far it came, and the job moved on.
#[derive(Clone, Copy)]
pub struct Advanced {
    pub progress: Progress,
    pub job: Job,
}
