// What follows from the reading of a ring: stops 6 to 10 of document 01, the newest record, and the next target.
ghost use Rattle.std.specs.Prelude.{◌≡◌, ◌*◌, ◌≤◌, length};
ghost use Rattle.octets.specs.Limits.{slot_length};
ghost use Rattle.ring.specs.Ring.{read_ring, half_named, is_blank, is_unreadable, is_pending, newest_page, newest_slot, newest_record, not_newest, nonce_in, nonce_used, target_page, target_slot, Within};
ghost use Rattle.ring.specs.View.{newest};

use crate::Newest;
use crate::pages::{Ring, next_page, slot_at};
use octets::limits::{NONCE_LENGTH, SLOT_LENGTH};
use octets::{part, same, value_of, word_at};

impl Newest {
    // Stop 6.
    pub fn is_blank(self) -> bool
        ensures { result ≡ is_blank (newest self) }
    {
        matches!(self, Newest::Blank)
    }

    // Stop 7.
    pub fn is_unreadable(self) -> bool
        ensures { result ≡ is_unreadable (newest self) }
    {
        matches!(self, Newest::Unreadable)
    }

    // Stop 9.
    pub fn is_pending(self) -> bool
        ensures { result ≡ is_pending (newest self) }
    {
        matches!(self, Newest::AtPending { .. })
    }

    // The newest record's page; 0 where there is none.
    pub fn page(self) -> usize
        ensures { result ≡ newest_page (newest self) }
    {
        match self {
            Newest::Blank | Newest::Unreadable => 0,
            Newest::At { page, .. } | Newest::AtPending { page, .. } => page,
        }
    }

    // The newest record's slot; 0 where there is none.
    pub fn slot(self) -> usize
        ensures { result ≡ newest_slot (newest self) }
    {
        match self {
            Newest::At { slot, .. } => slot,
            Newest::Blank | Newest::Unreadable | Newest::AtPending { .. } => 0,
        }
    }
}

// A ring that was read, and what it holds.
#[derive(Clone, Copy)]
pub struct Reading<'a> {
    pub ring: Ring<'a>,
    pub found: Newest,
    pub ghost is_read: { newest found ≡ read_ring ring.bytes.now ring.pages ring.slots },
    pub ghost within: { Within ring.pages ring.slots (newest found) },
}

impl<'a> Reading<'a> {
    // The page of the next target.
    pub fn target_page(&self) -> usize
        ensures { result ≡ target_page self.now.ring.pages self.now.ring.slots (newest self.now.found) }
    {
        let page = self.found.page();
        if self.found.slot() + 1 < self.ring.slots {
            return page;
        }
        next_page(self.ring.pages, page)
    }

    // Its slot.
    pub fn target_slot(&self) -> usize
        ensures { result ≡ target_slot self.now.ring.slots (newest self.now.found) }
    {
        let slot = self.found.slot() + 1;
        if slot < self.ring.slots { slot } else { 0 }
    }

    // The newest record.
    pub fn record(&self) -> &'a [u8]
        ensures { (result.now ≡ newest_record self.now.ring.bytes.now self.now.ring.slots (newest self.now.found)) × (length result.now ≡ slot_length) }
    {
        slot_at(
            self.ring.bytes,
            self.ring.slots,
            self.found.page(),
            self.found.slot(),
        )
    }

    // Stop 8: a page, slot or record is not the newest.
    pub fn not_newest(&self, page: usize, slot: usize, latest: &[u8]) -> bool
        ensures { result ≡ not_newest self.now.ring.bytes.now self.now.ring.slots (newest self.now.found) page slot latest.now }
    {
        !((page == self.found.page()) & (slot == self.found.slot()) & same(latest, self.record()))
    }

    // Stop 10: a nonce equals one in a record of the newest page.
    pub fn nonce_used(&self, nonce: &[u8]) -> bool
        ensures { result ≡ nonce_used self.now.ring.bytes.now self.now.ring.slots (newest self.now.found) nonce.now }
    {
        nonce_in(
            nonce,
            self.ring.page(self.found.page()),
            self.found.slot() + 1,
        )
    }
}

// The half that a record names: 0 for A and 1 for B, as jobs have it in their bytes for C (hosts/c/keeper.h).
pub fn half_named(slot: &[u8]) -> usize
    requires { slot_length ≤ length slot.now }
    ensures { result ≡ half_named slot.now }
{
    value_of(word_at(slot, NONCE_LENGTH))
}

// Whether a nonce stands in one of a page's first `count` slots.
fn nonce_in(nonce: &[u8], page: &[u8], count: usize) -> bool
    requires { slot_length * count ≤ length page.now }
    ensures { result ≡ nonce_in nonce.now page.now count }
{
    (0..count).any(|k| same(part(page, SLOT_LENGTH * k, NONCE_LENGTH), nonce))
}
