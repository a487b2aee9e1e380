// The papers' bench values of the limits: what a first save says to a number of pages, a FRAM, parts of given lengths and a packet number,
// and a power-up to a state buffer of a given length, and to a ring whose pages that are not blank do not follow each other.
ghost use Rattle.std.specs.Prelude.{◌≤◌};

use crate::print::{print, print_start};
use crate::values::{long_key, starting_tag};
use keeper::{Draft, From, Memories, from_tag, power_up};
use octets::limits::PART_LIMIT;
use octets::part;
use stops::Stop;

// A FRAM longer than the longest, with nothing in it. A first save reads of a FRAM its length alone, so this one stands in the program's
// constants and not on the stack.
const IMAGE: [u8; 262_152] = [0; 262_152];

// Prints a line of what a start said.
fn say<T: Drop>(rt: &impl Print, name: &str, started: Result<T, Stop>) {
    print(rt, name.as_bytes());
    print_start(rt, ": ", started);
    print(rt, b"\n");
}

// Begins a save and prints what it says; staging is long enough for every FRAM that is tried.
fn begin(
    rt: &impl Print,
    name: &str,
    pages: usize,
    ring: &[u8],
    fram: &[u8],
    from: From,
    packet: usize,
    open: &[u8],
    secret: &[u8],
) {
    let mut staging = [0u8; 131_076];
    let memories = Memories {
        pages,
        slots: 2,
        ring,
        fram,
    };
    let draft = Draft {
        key: &long_key(),
        nonce: &[1u8; 12],
        packet,
        open_part: open,
        secret,
    };
    say(rt, name, from.save(&memories, &draft, &mut staging));
}

// A first save on a blank ring of pages of 2 slots.
fn try_first_save(
    rt: &impl Print,
    name: &str,
    pages: usize,
    fram: usize,
    packet: usize,
    open: usize,
    secret: usize,
)
    requires { (pages ≤ 33) × (fram ≤ 262152) × («open» ≤ 32772) × (secret ≤ 32772) }
{
    let ring = [0xFFu8; 1056];
    let bytes = [0u8; 32_772];
    begin(
        rt,
        name,
        pages,
        part(&ring, 0, 32 * pages),
        part(&IMAGE, 0, fram),
        from_tag(&starting_tag()),
        packet,
        part(&bytes, 0, open),
        part(&bytes, 0, secret),
    );
}

// A save with a starting tag of a number of bytes.
fn try_tag(rt: &impl Print, name: &str, length: usize)
    requires { length ≤ 17 }
{
    let ring = [0xFFu8; 96];
    let fram = [0u8; 128];
    let tag = [0u8; 17];
    begin(
        rt,
        name,
        3,
        &ring,
        &fram,
        from_tag(part(&tag, 0, length)),
        0,
        b"",
        b"",
    );
}

// Begins a power-up with a ring of 4 pages of 2 slots and prints what it says.
fn try_power_up(rt: &impl Print, name: &str, ring: &[u8], state: &mut [u8]) {
    let fram = [0u8; 128];
    let mut staging = [0u8; 64];
    let memories = Memories {
        pages: 4,
        slots: 2,
        ring,
        fram: &fram,
    };
    let powered = power_up(&memories, &long_key(), &[1u8; 12], &mut staging, state);
    say(rt, name, powered);
}

// With a blank ring, which gives 6 where the state buffer is long enough.
pub fn show_state_bounds(rt: &impl Print) {
    let ring = [0xFFu8; 128];
    let mut short = [0u8; 32_767];
    try_power_up(
        rt,
        "state buffer of 32767 bytes, power-up",
        &ring,
        &mut short,
    );
    let mut state = [0u8; 32_768];
    try_power_up(
        rt,
        "state buffer of 32768 bytes, power-up",
        &ring,
        &mut state,
    );
}

// With pages 0 and 2 not blank.
pub fn show_parted_ring(rt: &impl Print) {
    let mut ring = [0xFFu8; 128];
    ring[0] = 0;
    ring[64] = 0;
    let mut state = [0u8; PART_LIMIT];
    try_power_up(
        rt,
        "pages 0 and 2 of 4 not blank, power-up",
        &ring,
        &mut state,
    );
}

pub fn show_fram_bounds(rt: &impl Print) {
    try_first_save(rt, "FRAM of 80 bytes", 3, 80, 0, 0, 0);
    try_first_save(rt, "FRAM of 84 bytes", 3, 84, 0, 0, 0);
    try_first_save(rt, "FRAM of 88 bytes, empty parts", 3, 88, 0, 0, 0);
    try_first_save(rt, "FRAM of 96 bytes, empty parts", 3, 96, 0, 0, 0);
    try_first_save(rt, "FRAM of 96 bytes, a word of open part", 3, 96, 0, 4, 0);
    try_first_save(
        rt,
        "FRAM of 96 bytes, a word of secret part",
        3,
        96,
        0,
        0,
        4,
    );
    try_first_save(rt, "FRAM of 262144 bytes", 3, 262_144, 0, 0, 0);
    try_first_save(rt, "FRAM of 262152 bytes", 3, 262_152, 0, 0, 0);
}

pub fn show_page_bounds(rt: &impl Print) {
    try_first_save(rt, "2 pages", 2, 128, 0, 0, 0);
    try_first_save(rt, "3 pages", 3, 128, 0, 0, 0);
    try_first_save(rt, "32 pages", 32, 128, 0, 0, 0);
    try_first_save(rt, "33 pages", 33, 128, 0, 0, 0);
}

pub fn show_tag_bounds(rt: &impl Print) {
    try_tag(rt, "starting tag of 15 bytes", 15);
    try_tag(rt, "starting tag of 16 bytes", 16);
    try_tag(rt, "starting tag of 17 bytes", 17);
}

pub fn show_part_bounds(rt: &impl Print) {
    try_first_save(rt, "open part of 32768 bytes", 3, 262_144, 0, 32_768, 0);
    try_first_save(rt, "open part of 32769 bytes", 3, 262_144, 0, 32_769, 0);
    try_first_save(rt, "open part of 32772 bytes", 3, 262_144, 0, 32_772, 0);
    try_first_save(rt, "secret part of 32768 bytes", 3, 262_144, 0, 0, 32_768);
    try_first_save(rt, "secret part of 32769 bytes", 3, 262_144, 0, 0, 32_769);
    try_first_save(rt, "secret part of 32772 bytes", 3, 262_144, 0, 0, 32_772);
}

pub fn show_packet_bounds(rt: &impl Print) {
    try_first_save(rt, "packet number 1073741823", 3, 128, 1_073_741_823, 0, 0);
    try_first_save(rt, "packet number 1073741824", 3, 128, 1_073_741_824, 0, 0);
    try_first_save(
        rt,
        "packet number 1073741824, FRAM of 88 bytes",
        3,
        88,
        1_073_741_824,
        0,
        0,
    );
}
