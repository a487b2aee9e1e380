// The pages and slots of a ring. A page or slot that is asked for lies in the image.
ghost use Rattle.std.specs.Prelude.{◌≡◌, true, false, MatchResult, ◌+◌, ◌*◌, ◌≤◌, ◌<◌, length};
ghost use Rattle.octets.specs.Limits.{slot_length};
ghost use Rattle.octets.specs.Octets.{blank};
ghost use Rattle.stops.specs.View.{stop_number};
ghost use Rattle.ring.specs.Ring.{ring_wrong, slot_at, page_at, next_page, page_before};

use octets::limits::{PAGES_LEAST, PAGES_LIMIT, SLOT_LENGTH, SLOTS_LEAST, SLOTS_LIMIT};
use octets::{blank, part};
use stops::Stop;

// A ring of right sizes.
#[derive(Clone, Copy)]
pub struct Ring<'a> {
    pub bytes: &'a [u8],
    pub pages: usize,
    pub slots: usize,
    pub ghost right: { ring_wrong pages slots bytes.now ≡ false },
}

impl<'a> Ring<'a> {
    // Stop 1.
    pub fn new(bytes: &'a [u8], pages: usize, slots: usize) -> Result<Ring<'a>, Stop>
        ensures { MatchResult result (λ r. (ring_wrong pages slots bytes.now ≡ false) × (r.bytes.now ≡ bytes.now) × (r.pages ≡ pages) × (r.slots ≡ slots)) (λ s. (ring_wrong pages slots bytes.now ≡ true) × (stop_number s ≡ 1)) }
    {
        if ring_wrong(bytes, pages, slots) {
            return Err(Stop::RingSize);
        }
        Ok(Ring {
            bytes,
            pages,
            slots,
        })
    }

    // The bytes of a page.
    pub fn page(&self, page: usize) -> &'a [u8]
        requires { page < self.now.pages }
        ensures { (result.now ≡ page_at self.now.bytes.now self.now.slots page) × (length result.now ≡ slot_length * self.now.slots) }
    {
        page_at(self.bytes, self.slots, page)
    }
}

// Stop 1: the numbers of pages and slots, or the image's length, are wrong.
pub fn ring_wrong(ring: &[u8], pages: usize, slots: usize) -> bool
    ensures { result ≡ ring_wrong pages slots ring.now }
{
    if (pages < PAGES_LEAST)
        | (pages > PAGES_LIMIT)
        | (slots < SLOTS_LEAST)
        | (slots > SLOTS_LIMIT)
    {
        return true;
    }
    ring.len() != SLOT_LENGTH * (pages * slots)
}

pub(crate) fn page_at(ring: &[u8], slots: usize, page: usize) -> &[u8]
    requires { slot_length * (page * slots) + slot_length * slots ≤ length ring.now }
    ensures { (result.now ≡ page_at ring.now slots page) × (length result.now ≡ slot_length * slots) }
{
    part(ring, SLOT_LENGTH * (page * slots), SLOT_LENGTH * slots)
}

pub fn slot_at(ring: &[u8], slots: usize, page: usize, slot: usize) -> &[u8]
    requires { slot_length * (page * slots + slot) + slot_length ≤ length ring.now }
    ensures { (result.now ≡ slot_at ring.now slots page slot) × (length result.now ≡ slot_length) }
{
    part(ring, SLOT_LENGTH * (page * slots + slot), SLOT_LENGTH)
}

pub fn page_is_blank(ring: &[u8], slots: usize, page: usize) -> bool
    requires { slot_length * (page * slots) + slot_length * slots ≤ length ring.now }
    ensures { result ≡ blank (page_at ring.now slots page) }
{
    blank(page_at(ring, slots, page))
}

pub fn slot_is_blank(ring: &[u8], slots: usize, page: usize, slot: usize) -> bool
    requires { slot_length * (page * slots + slot) + slot_length ≤ length ring.now }
    ensures { result ≡ blank (slot_at ring.now slots page slot) }
{
    blank(slot_at(ring, slots, page, slot))
}

pub fn next_page(pages: usize, page: usize) -> usize
    requires { page < pages }
    ensures { result ≡ next_page pages page }
{
    if page + 1 == pages { 0 } else { page + 1 }
}

pub fn page_before(pages: usize, page: usize) -> usize
    requires { page < pages }
    ensures { result ≡ page_before pages page }
{
    if page == 0 { pages - 1 } else { page - 1 }
}
