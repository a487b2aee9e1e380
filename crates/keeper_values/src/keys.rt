// What keys of several lengths get from a unit whose own key has 16 bytes or 32. A key of the other of these lengths passes the checks of
// lengths, and is another key.
use crate::life::STORES;
use crate::print::{print, print_start};
use crate::unit::{do_first_save, print_looked, start_power_up, start_save};
use crate::values::starting_tag;
use keeper::{From, Session, from_session, from_tag};
use octets::limits::PART_LIMIT;

// Begins a save and prints what it says.
fn try_save(rt: &impl Print, name: &str, key: &[u8], from: From, ring: &[u8], fram: &[u8]) {
    let mut staging = [0u8; 64];
    let started = start_save(key, from, 2, 2, 2, ring, fram, &mut staging);
    print_start(rt, name, started);
}

// The same of a power-up.
fn try_power_up(rt: &impl Print, name: &str, key: &[u8], ring: &[u8], fram: &[u8]) {
    let mut staging = [0u8; 64];
    let mut state = [0u8; PART_LIMIT];
    let powered = start_power_up(key, 2, ring, fram, &mut staging, &mut state);
    print_start(rt, name, powered);
}

// A first save on a blank ring, and on the unit's memories a save, a power-up and a look.
fn try_calls(rt: &impl Print, key: &[u8], s: Session, ring: &[u8], fram: &[u8]) {
    let blank = [0xFFu8; 96];
    let first = from_tag(&starting_tag());
    try_save(rt, ": first save ", key, first, &blank, fram);
    try_save(rt, ", save ", key, from_session(s), ring, fram);
    try_power_up(rt, ", power-up ", key, ring, fram);
    print_looked(rt, key, ring, fram);
}

fn try_key(rt: &impl Print, length: usize, s: Session, ring: &[u8], fram: &[u8]) {
    let bytes = [0x4Bu8; 33];
    let _ = print!(rt; "key of {length} bytes");
    try_calls(rt, bytes.get(..length).unwrap_or(&bytes), s, ring, fram);
    print(rt, b"\n");
}

pub fn show_keys(rt: &impl Print, own: &[u8]) {
    let mut ring = [0xFFu8; 96];
    let mut fram = [0u8; 128];
    let s = do_first_save(rt, own, 1, 1, STORES, &mut ring, &mut fram);
    for length in [15, 16, 17, 24, 31, 32, 33] {
        try_key(rt, length, s, &ring, &fram);
    }
}
