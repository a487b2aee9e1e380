// The life of a unit whose firmware was updated. Its memories, on standard input, are those that older firmware left: a first save of 1 and a
// power-up, with a FRAM of 128 bytes and a key of 32, the only length that it took.
use crate::life::STORES;
use crate::print::print;
use crate::unit::{do_power_up, do_save_hearing, print_memories};
use crate::values::long_key;
use bench_io::read_full;
use keeper::{Session, no_session};
use octets::{copy, part};

// The power-up seals the older checkpoint anew. Packet 0 is not newer than none.
fn go_on(rt: &impl Print, key: &[u8], ring: &mut [u8], fram: &mut [u8]) -> Session {
    let none = no_session();
    let s = do_power_up(rt, key, none, 3, STORES + 1, ring, fram);
    do_save_hearing(rt, key, s, 0, 2, 4, STORES, ring, fram)
}

// Packet 7 sets the restarts to 0 once; its repeat does not.
fn hear_repeats(
    rt: &impl Print,
    key: &[u8],
    s: Session,
    ring: &mut [u8],
    fram: &mut [u8],
) -> Session {
    let s = do_save_hearing(rt, key, s, 7, 3, 5, STORES + 1, ring, fram);
    let s = do_power_up(rt, key, s, 6, STORES, ring, fram);
    do_save_hearing(rt, key, s, 7, 4, 7, STORES + 1, ring, fram)
}

// Packet 6 does not either, and 7 stays stored: packet 8 is newer.
fn hear_newer(
    rt: &impl Print,
    key: &[u8],
    s: Session,
    ring: &mut [u8],
    fram: &mut [u8],
) -> Session {
    let s = do_save_hearing(rt, key, s, 6, 5, 8, STORES, ring, fram);
    let s = do_save_hearing(rt, key, s, 7, 6, 9, STORES + 1, ring, fram);
    do_save_hearing(rt, key, s, 8, 7, 10, STORES, ring, fram)
}

fn live_on(rt: &impl Print, key: &[u8], ring: &mut [u8], fram: &mut [u8]) {
    let s = go_on(rt, key, ring, fram);
    let s = hear_repeats(rt, key, s, ring, fram);
    hear_newer(rt, key, s, ring, fram);
}

// The checkpoints of a FRAM of 128 bytes in one of 112, whose halves they fill.
fn closer(fram: &[u8]) -> [u8; 112] {
    let mut small = [0u8; 112];
    if fram.len() == 128 {
        copy(part(fram, 0, 56), &mut small);
        copy(part(fram, 64, 56), &mut small[56..]);
    }
    small
}

// Sealed anew they outgrow them.
fn outgrow(rt: &impl Print, key: &[u8], ring: &mut [u8], fram: &mut [u8]) {
    print(rt, b"older firmware, a FRAM of 112 bytes");
    print_memories(rt, key, ring, fram);
    let none = no_session();
    do_power_up(rt, key, none, 3, STORES, ring, fram);
}

fn update(rt: &impl Print, key: &[u8], ring: &mut [u8], fram: &mut [u8]) {
    print(rt, b"older firmware, a FRAM of 128 bytes");
    print_memories(rt, key, ring, fram);
    live_on(rt, key, ring, fram);
}

pub fn live_updated(rt: &(impl Input + Print)) {
    let mut ring = [0u8; 96];
    let mut fram = [0u8; 128];
    let mut input = rt.reader();
    read_full(&mut input, &mut ring);
    read_full(&mut input, &mut fram);
    let mut small = closer(&fram);
    let key = long_key();
    outgrow(rt, &key, &mut ring, &mut small);
    update(rt, &key, &mut ring, &mut fram);
}
