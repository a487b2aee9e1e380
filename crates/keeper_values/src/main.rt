// The papers' bench values that are run and not proved, the lives of units with a key of 32 bytes and of 16 from their first save on, and that
// of one whose firmware was updated.
#![tactic(auto)]

mod bounds;
mod keys;
mod life;
mod print;
mod unit;
mod updated;
mod values;

use keeper::wipe;
use print::{print, print_bytes};
use values::{long_key, short_key};

fn show_bounds(rt: &impl Print) {
    bounds::show_fram_bounds(rt);
    bounds::show_page_bounds(rt);
    bounds::show_tag_bounds(rt);
    bounds::show_part_bounds(rt);
    bounds::show_packet_bounds(rt);
    bounds::show_state_bounds(rt);
    bounds::show_parted_ring(rt);
}

fn show_unit(rt: &impl Print, key: &[u8]) {
    let _ = print!(rt; "a unit with a key of {} bytes\n", key.len());
    keys::show_keys(rt, key);
    let mut ring = [0xFFu8; 96];
    let mut fram = [0u8; 128];
    life::live(rt, key, &mut ring, &mut fram);
}

fn show_wipe(rt: &impl Print) {
    let mut state = [0x0Bu8; 8];
    wipe(&mut state);
    print(rt, b"wiped: ");
    print_bytes(rt, &state);
    print(rt, b"\n");
}

fn main(rt: HostRuntime) {
    show_bounds(&rt);
    show_unit(&rt, &long_key());
    show_unit(&rt, &short_key());
    updated::live_updated(&rt);
    show_wipe(&rt);
}
