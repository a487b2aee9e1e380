// The two stores of a ring: a page set to 0xFF, and one record.
ghost use Rattle.std.specs.Prelude.{◌≡◌, ◌+◌, ◌*◌, ◌≤◌, ◌<◌, length};
ghost use Rattle.octets.specs.Limits.{slot_length};
ghost use Rattle.ring.specs.Ring.{record_of, page_erased, record_put};

use octets::limits::{NONCE_LENGTH, SLOT_LENGTH};
use octets::{copy, copy_at, fill, word_of};

// Sets a page to 0xFF.
pub fn erase_page(ring: &mut [u8], slots: usize, page: usize)
    requires { slot_length * (page * slots) + slot_length * slots ≤ length ring.old }
    ensures { ring.new ≡ page_erased ring.old slots page }
{
    let a = SLOT_LENGTH * (page * slots);
    let e = a + SLOT_LENGTH * slots;
    fill(&mut ring[a..e], 0xFF);
}

// The record of a nonce and a half.
pub fn record_of(nonce: [u8; 12], half: usize) -> [u8; 16]
    requires { half < 2 }
    ensures { result ≡ record_of nonce half }
{
    let mut r = [0u8; 16];
    copy(&nonce, &mut r);
    copy_at(&word_of(1, half), &mut r, NONCE_LENGTH);
    r
}

// Writes a record to a slot.
pub fn write_record(ring: &mut [u8], slots: usize, page: usize, slot: usize, bytes: [u8; 16])
    requires { slot_length * (page * slots + slot) + slot_length ≤ length ring.old }
    ensures { ring.new ≡ record_put ring.old slots page slot bytes }
{
    copy_at(&bytes, ring, SLOT_LENGTH * (page * slots + slot));
}
