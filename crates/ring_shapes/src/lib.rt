// Every shape of a readable ring of a small size, numbered, for the bench (document 02, A.9).
#![tactic(auto)]

ghost use Rattle.std.specs.Prelude.{◌≡◌, ◌+◌, ◌*◌, ◌≤◌, length};
ghost use Rattle.octets.specs.Limits.{slot_length, shape_pages_limit, shape_slots_limit};
ghost use Rattle.ring_shapes.specs.Shapes.{size_wrong, past_last, with_records, ring_number, ring_shape, shaped_as};
ghost use Rattle.ring_shapes.specs.Inner.{ToShape};

use octets::fill;
use octets::limits::{SHAPE_PAGES_LIMIT, SHAPE_SLOTS_LIMIT};
use ring::{page_before, record_of, ring_wrong, write_record};
use stops::Stop;

// Stop 1.
fn size_wrong(ring: &[u8], pages: usize, slots: usize) -> bool
    ensures { result ≡ size_wrong pages slots ring.now }
{
    ring_wrong(ring, pages, slots) | (pages > SHAPE_PAGES_LIMIT) | (slots > SHAPE_SLOTS_LIMIT)
}

// Stop 26. A page has one shape more than it has slots.
fn past_last(pages: usize, slots: usize, number: usize) -> bool
    requires { (pages ≤ shape_pages_limit) × (slots ≤ shape_slots_limit) }
    ensures { result ≡ past_last pages slots number }
{
    number > pages * (slots + 1)
}

// Writes R to the first k slots of a page.
fn put_records(ring: &mut [u8], slots: usize, page: usize, k: usize)
    requires { slot_length * (page * slots + k) ≤ length ring.old }
    ensures { ring.new ≡ with_records ring.old slots page k }
{
    let r = record_of([0; 12], 0);
    for slot in 0..k {
        write_record(ring, slots, page, slot, r);
    }
}

// Makes a blank ring that of a number but 0. The shapes of a page are one with the page before pending, and one for each of its slots.
fn put_shape(ring: &mut [u8], pages: usize, slots: usize, number: usize)
    requires { ToShape pages slots number ring.old }
    ensures { ring.new ≡ ring_number pages slots number }
{
    let page = (number - 1) / (slots + 1);
    let records = (number - 1) % (slots + 1);
    if records > 0 {
        put_records(ring, slots, page, records);
        return;
    }
    let before = page_before(pages, page);
    put_records(ring, slots, before, slots);
    put_records(ring, slots, page, 1);
}

// Writes ring number `number`, counted from 0, of `pages` pages of `slots` slots to a buffer of that ring's size.
pub fn ring_shape(pages: usize, slots: usize, number: usize, ring: &mut [u8]) -> Result<(), Stop>
    ensures { shaped_as result ring.new ≡ ring_shape pages slots number ring.old }
{
    if size_wrong(ring, pages, slots) {
        return Err(Stop::RingSize);
    }
    if past_last(pages, slots, number) {
        return Err(Stop::PastLastShape);
    }
    fill(ring, 0xFF);
    if number > 0 {
        put_shape(ring, pages, slots, number);
    }
    Ok(())
}
