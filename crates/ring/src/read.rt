// Reading a ring: one pass over its pages. Each is looked at up to its first byte that is not 0xFF. Of the used pages only the newest is
// read on: its records by their place words, and the slots behind them byte by byte.
ghost use Rattle.std.specs.Prelude.{◌≡◌, [], ◌∷◌, ◌-◌, ◌*◌, ◌≤◌, ◌<◌, length, slice_get, IfSome};
ghost use Rattle.octets.specs.Limits.{slot_length};
ghost use Rattle.ring.specs.Ring.{is_record, records, used_from, alone, followed, reading, read_ring, Within};
ghost use Rattle.ring.specs.View.{newest};

use crate::Newest;
use crate::pages::{Ring, next_page};
use octets::limits::{NONCE_LENGTH, SLOT_LENGTH};
use octets::{blank, kind_of, part, value_of, word_at};

// Whether a slot holds a record: its place word is of kind 1, and of value 0 or 1.
fn is_record(slot: &[u8]) -> bool
    requires { slot_length ≤ length slot.now }
    ensures { result ≡ is_record slot.now }
{
    let place = word_at(slot, NONCE_LENGTH);
    (kind_of(place) == 1) & (value_of(place) < 2)
}

// How many of a page's slots are records, from the first on, up to the first that is none.
fn records(page: &[u8], slots: usize) -> usize
    requires { slot_length * slots ≤ length page.now }
    ensures { (result ≡ records page.now slots) × (result ≤ slots) }
{
    (0..slots)
        .take_while(|k| is_record(part(page, SLOT_LENGTH * *k, SLOT_LENGTH)))
        .count()
}

impl Ring<'_> {
    // The first page from `from` on that is not blank.
    fn next_used(&self, from: usize) -> Option<usize>
        requires { from ≤ self.now.pages }
        ensures first { result ≡ slice_get (used_from self.now.bytes.now self.now.slots from (self.now.pages - from)) 0 }
        ensures within { IfSome result (λ p. p < self.now.pages) }
    {
        (from..self.pages).find(|p| !blank(self.page(*p)))
    }

    // The newest record where one page is not blank.
    fn alone(&self, page: usize) -> Newest
        requires { page < self.now.pages }
        ensures { newest result ≡ alone self.now.bytes.now self.now.slots page }
    {
        let bytes = self.page(page);
        let k = records(bytes, self.slots);
        if k == 0 {
            return Newest::Unreadable;
        }
        let rest = SLOT_LENGTH * k;
        if blank(&bytes[rest..]) {
            return Newest::At { page, slot: k - 1 };
        }
        Newest::Unreadable
    }

    // The newest record where two pages are not blank and `newer` follows `older`.
    fn followed(&self, older: usize, newer: usize) -> Newest
        requires { newer < self.now.pages }
        ensures { newest result ≡ followed self.now.bytes.now self.now.slots older newer }
    {
        let bytes = self.page(newer);
        if records(bytes, self.slots) != 1 {
            return Newest::Unreadable;
        }
        if blank(&bytes[SLOT_LENGTH..]) {
            return Newest::AtPending {
                page: newer,
                pending: older,
            };
        }
        Newest::Unreadable
    }

    // The newest record where the pages p and q are not blank.
    fn pair(&self, p: usize, q: usize) -> Newest
        requires { (p < self.now.pages) × (q < self.now.pages) }
        ensures { newest result ≡ reading self.now.bytes.now self.now.pages self.now.slots (p ∷ q ∷ []) }
    {
        if q == next_page(self.pages, p) {
            return self.followed(p, q);
        }
        if p == next_page(self.pages, q) {
            return self.followed(q, p);
        }
        Newest::Unreadable
    }

    // What the ring holds.
    pub fn read(&self) -> Newest
        ensures { (newest result ≡ read_ring self.now.bytes.now self.now.pages self.now.slots) × Within self.now.pages self.now.slots (newest result) }
    {
        let Some(p) = self.next_used(0) else {
            return Newest::Blank;
        };
        let Some(q) = self.next_used(p + 1) else {
            return self.alone(p);
        };
        if self.next_used(q + 1).is_some() {
            return Newest::Unreadable;
        }
        self.pair(p, q)
    }
}
