// The nonce ring in flash (document 01, "The nonce ring"): reading it, and its stores.
#![tactic(auto)]

mod found;
mod pages;
mod read;
mod stores;

pub use found::{Reading, half_named};
pub use pages::{Ring, next_page, page_before, page_is_blank, ring_wrong, slot_at, slot_is_blank};
pub use stores::{erase_page, record_of, write_record};

// What reading a ring finds: the newest record's place, and the page that awaits erasing.
#[derive(Clone, Copy, PartialEq, Eq)]
pub enum Newest {
    Blank,
    Unreadable,
    At { page: usize, slot: usize },
    // The newest record is in slot 0.
    AtPending { page: usize, pending: usize },
}
