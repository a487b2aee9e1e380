// Prints sealed checkpoints of several sizes under keys of 32 and of 16 bytes in both halves of a FRAM image, the largest by their ends, then
// how each reads, under a key of the other length too, and how a half reads that was changed, also one with a checkpoint of the older
// form, which comes from standard input.
#![tactic(auto)]

ghost use Rattle.std.specs.Prelude.{◌≡◌, ◌<◌, ◌≤◌, length};
ghost use Rattle.octets.specs.Limits.{nonce_length, packet_limit, part_limit};
ghost use Rattle.gcm.specs.Calls.{KeyLength};

use bench_io::read_full;
use checkpoint::half::{Head, open_part, open_secret, read_head};
use checkpoint::layout::{EMPTY_LENGTH, HEAD_LENGTH, PACKET_LENGTH};
use checkpoint::staging::Unsealed;
use checkpoint::under::{good_tag_under, seal_under};
use gcm::prepared::with_key;
use octets::limits::{LONG_KEY, PART_LIMIT, SHORT_KEY};
use octets::{copy_at, part, same};
use stops::{Stop, StopIf, stop_number};

// The longest checkpoint, 65,584 bytes; an image holds two.
const HALF: usize = EMPTY_LENGTH + 2 * PART_LIMIT;

// Checkpoints up to this length are printed whole; of longer ones the head and the last LAST bytes.
const WHOLE: usize = 10_000;

const LAST: usize = 64;

// A checkpoint: whether its key has 16 bytes or 32, its half, its packet number, both parts' lengths, its restarts, and its nonce's first
// byte.
#[derive(Clone, Copy)]
struct Case {
    short: bool,
    half: usize,
    packet: usize,
    open: usize,
    secret: usize,
    restarts: usize,
    first: u8,
    ghost half_named: { half ≤ 1 },
    ghost packet_small: { packet ≤ packet_limit },
    ghost open_small: { «open» ≤ part_limit },
    ghost secret_small: { secret ≤ part_limit },
    ghost restarts_small: { restarts ≤ 8 },
}

// How a half reads that no stop keeps from being read.
enum Reading {
    Same,
    PartDiffers,
    HeadDiffers,
}

// Bytes that begin with `first` and rise by `step`.
fn rising<const N: usize>(first: u8, step: u8) -> [u8; N] {
    let mut s = [0u8; N];
    let mut b = first;
    for x in s.iter_mut() {
        *x = b;
        b = b.wrapping_add(step);
    }
    s
}

// The key of 32 bytes, which begins with that of 16.
fn long_key() -> [u8; LONG_KEY] {
    rising(0, 1)
}

fn key_length(short: bool) -> usize
    ensures { KeyLength result }
{
    if short { SHORT_KEY } else { LONG_KEY }
}

fn nonce(first: u8) -> [u8; 12] {
    rising(first, 1)
}

fn first_part() -> [u8; PART_LIMIT] {
    rising(1, 7)
}

fn second_part() -> [u8; PART_LIMIT] {
    rising(3, 5)
}

// Seals the checkpoint into staging.
fn stage(c: Case, staging: &mut [u8])
    requires { length staging.old ≡ 65584 }
    ensures { length staging.new ≡ 65584 }
{
    let nonce = nonce(c.first);
    let previous = rising::<16>(0xa0, 1);
    let first = first_part();
    let second = second_part();
    let unsealed = Unsealed {
        nonce: &nonce,
        packet: c.packet,
        restarts: c.restarts,
        previous: &previous,
        open_part: part(&first, 0, c.open),
        secret: part(&second, 0, c.secret),
    };
    seal_under(
        part(&long_key(), 0, key_length(c.short)),
        &unsealed,
        staging,
    );
}

// Prints bytes in hexadecimal.
fn print_bytes(rt: &impl Print, s: &[u8]) {
    for b in s {
        let _ = print!(rt; "{b:02x}");
    }
}

// Prints a checkpoint; two dots stand for what is left out of it.
fn print_checkpoint(rt: &impl Print, s: &[u8]) {
    if s.len() <= WHOLE {
        print_bytes(rt, s);
    } else {
        print_bytes(rt, part(s, 0, HEAD_LENGTH));
        let _ = rt.write_all(b" .. ");
        print_bytes(rt, part(s, s.len() - LAST, LAST));
    }
}

fn print_case(rt: &impl Print, c: Case) {
    let half = if c.half == 0 { 'A' } else { 'B' };
    let _ = print!(rt;
        "half {half} packet {} open {} secret {} restarts {}",
        c.packet, c.open, c.secret, c.restarts
    );
}

// Puts the checkpoint into its half of the image.
fn place(c: Case, image: &mut [u8])
    requires { length image.old ≡ 131168 }
    ensures { length image.new ≡ 131168 }
{
    let mut staging = [0u8; HALF];
    stage(c, &mut staging);
    let i = c.half * HALF;
    let n = EMPTY_LENGTH + c.open + c.secret;
    copy_at(part(&staging, 0, n), image, i);
}

// Prints what the checkpoint's half then begins with.
fn show(rt: &impl Print, c: Case) {
    let mut image = [0xFFu8; 2 * HALF];
    place(c, &mut image);
    print_case(rt, c);
    let _ = rt.write_all(b"\n");
    let i = c.half * HALF;
    let n = EMPTY_LENGTH + c.open + c.secret;
    print_checkpoint(rt, part(&image, i, n));
    let _ = rt.write_all(b"\n");
}

// Whether the open part is the one sealed.
fn open_agrees(head: &Head<'_>) -> bool
    requires { head.now.open_part ≤ part_limit }
{
    same(
        open_part(head.half, head.start, head.open_part),
        part(&first_part(), 0, head.open_part),
    )
}

// Whether the secret part, decrypted, is the one sealed.
fn secret_agrees(key: &[u8], nonce: &[u8], head: &Head<'_>) -> bool
    requires { KeyLength (length key.now) × (length nonce.now ≡ nonce_length) × (head.now.secret ≤ part_limit) }
{
    let mut state = [0u8; PART_LIMIT];
    with_key(
        key,
        &mut |prepared| {
            open_secret(&prepared.schedule, nonce, head, &mut state);
        },
    );
    same(
        part(&state, 0, head.secret),
        part(&second_part(), 0, head.secret),
    )
}

// Whether the head says what the checkpoint's does.
fn head_agrees(head: &Head<'_>, c: Case) -> bool {
    (head.packet == c.packet)
        & (head.open_part == c.open)
        & (head.secret == c.secret)
        & (head.restarts == c.restarts)
}

// Whether both parts are the ones sealed, where the tag is right.
fn opened(short: bool, head: &Head<'_>, first: u8) -> Result<bool, Stop>
    requires { (head.now.open_part ≤ part_limit) × (head.now.secret ≤ part_limit) }
{
    let bytes = long_key();
    let key = part(&bytes, 0, key_length(short));
    let nonce = nonce(first);
    if good_tag_under(key, &nonce, head) {
        return Ok(open_agrees(head) & secret_agrees(key, &nonce, head));
    }
    Err(Stop::TagDiffers)
}

// How the half reads beside the checkpoint, or the stop that it gives.
fn reads(half: &[u8], c: Case) -> Result<Reading, Stop> {
    if half.len() < EMPTY_LENGTH - PACKET_LENGTH {
        return Err(Stop::BadHead);
    }
    let Ok(head) = read_head(half) else {
        return Err(Stop::BadHead);
    };
    if !opened(c.short, &head, c.first)? {
        return Ok(Reading::PartDiffers);
    }
    if !head_agrees(&head, c) {
        return Ok(Reading::HeadDiffers);
    }
    Ok(Reading::Same)
}

// What is printed of it: the stop's number, else 0 where the half reads as the checkpoint, 1 where a part differs, 2 where the head does.
fn reading_number(half: &[u8], c: Case) -> u32 {
    match reads(half, c) {
        Ok(Reading::Same) => 0,
        Ok(Reading::PartDiffers) => 1,
        Ok(Reading::HeadDiffers) => 2,
        Err(stop) => stop_number(stop),
    }
}

// Prints how the checkpoint reads from its half, under its key and under that of the other length.
fn show_reading(rt: &impl Print, c: Case) {
    let mut image = [0xFFu8; 2 * HALF];
    place(c, &mut image);
    print_case(rt, c);
    let half = part(&image, c.half * HALF, HALF);
    let mut other = c;
    other.short = !c.short;
    let own = reading_number(half, c);
    let under_other = reading_number(half, other);
    let _ = println!(rt; ": {own}, under the other key {under_other}");
}

// Prints how the first n bytes of a half with the checkpoint read, with one byte changed, which then comes back.
fn show_change(rt: &impl Print, name: &str, c: Case, half: &mut [u8], n: usize, at: usize, byte: u8)
    requires { (n ≤ 65584) × (at < 65584) × (length half.old ≡ 65584) }
    ensures { length half.new ≡ 65584 }
{
    let before = half[at];
    half[at] = byte;
    let number = reading_number(part(half, 0, n), c);
    let _ = println!(rt; "{name}: {number}");
    half[at] = before;
}

fn a_case(
    short: bool,
    half: usize,
    packet: usize,
    open: usize,
    secret: usize,
    restarts: usize,
    first: u8,
) -> Case
    requires { (half ≤ 1) × (packet ≤ packet_limit) × («open» ≤ part_limit) × (secret ≤ part_limit) × (restarts ≤ 8) }
{
    Case {
        short,
        half,
        packet,
        open,
        secret,
        restarts,
        first,
    }
}

// The checkpoint with a number, 0 to 9.
fn numbered(short: bool, k: usize) -> Case {
    match k {
        0 => a_case(short, 0, 0, 0, 0, 0, 0),
        1 => a_case(short, 1, 1, 0, 0, 8, 128),
        2 => a_case(short, 0, 256, 4, 0, 1, 16),
        3 => a_case(short, 1, 65_536, 0, 4, 2, 32),
        4 => a_case(short, 0, 5, 8, 4, 3, 48),
        5 => a_case(short, 1, 1_073_741_823, 20, 36, 4, 64),
        6 => a_case(short, 0, 16_777_216, 4096, 4096, 5, 80),
        7 => a_case(short, 1, 305_419_896, 4096, 4096, 6, 96),
        8 => a_case(short, 0, 2, 32_768, 32_768, 7, 112),
        _ => a_case(short, 1, 3, 32_768, 32_768, 8, 128),
    }
}

fn print_key(rt: &impl Print, short: bool) {
    let _ = println!(rt; "a key of {} bytes", key_length(short));
}

// Each checkpoint; under the shorter key all but those whose parts have 4,096 bytes.
fn for_each_case<R: Print, F: Fn(&R, Case)>(rt: &R, show_one: F)
    requires { F.IsAlwaysCallable show_one }
{
    print_key(rt, false);
    for k in 0..10 {
        show_one(rt, numbered(false, k));
    }
    print_key(rt, true);
    for k in 0..6 {
        show_one(rt, numbered(true, k));
    }
    for k in 8..10 {
        show_one(rt, numbered(true, k));
    }
}

// Words of another kind. Those from the open part's length on stand at offset i.
fn show_kinds(rt: &impl Print, c: Case, half: &mut [u8], i: usize)
    requires { (i ≤ 4) × (length half.old ≡ 65584) }
    ensures { length half.new ≡ 65584 }
{
    show_change(rt, "open length of kind 0", c, half, HALF, i, 0x00);
    show_change(rt, "open length of kind 2", c, half, HALF, i, 0x80);
    show_change(rt, "secret length of kind 1", c, half, HALF, i + 4, 0x40);
    show_change(rt, "secret length of kind 3", c, half, HALF, i + 4, 0xC0);
    show_change(rt, "restarts of kind 0", c, half, HALF, i + 8, 0x00);
}

// Words with another value.
fn show_values(rt: &impl Print, c: Case, half: &mut [u8], i: usize)
    requires { (i ≤ 4) × (length half.old ≡ 65584) }
    ensures { length half.new ≡ 65584 }
{
    show_change(rt, "open part of 8194 words", c, half, HALF, i + 2, 0x20);
    show_change(rt, "open part of 1 word", c, half, HALF, i + 3, 1);
    show_change(rt, "secret part of 8193 words", c, half, HALF, i + 6, 0x20);
    show_change(rt, "9 restarts", c, half, HALF, i + 11, 9);
    show_change(rt, "8 restarts", c, half, HALF, i + 11, 8);
}

// Another byte behind the words, where the parts have 8 and 4.
fn show_bytes(rt: &impl Print, c: Case, half: &mut [u8], i: usize)
    requires { (i ≤ 4) × (length half.old ≡ 65584) }
    ensures { length half.new ≡ 65584 }
{
    show_change(rt, "a byte of the previous tag", c, half, HALF, i + 12, 0);
    show_change(rt, "a byte of the open part", c, half, HALF, i + 28, 0);
    show_change(
        rt,
        "a byte of the sealed secret part",
        c,
        half,
        HALF,
        i + 36,
        0,
    );
    show_change(rt, "a byte of the tag", c, half, HALF, i + 55, 0);
}

// Shorter halves.
fn show_ends(rt: &impl Print, c: Case, half: &mut [u8], i: usize)
    requires { (i ≤ 4) × (length half.old ≡ 65584) }
    ensures { length half.new ≡ 65584 }
{
    show_change(rt, "a half that ends with it", c, half, i + 56, i, 0x40);
    show_change(
        rt,
        "a half that ends 4 bytes earlier",
        c,
        half,
        i + 52,
        i,
        0x40,
    );
}

fn show_changes(rt: &impl Print, c: Case, half: &mut [u8], i: usize)
    requires { (i ≤ 4) × (length half.old ≡ 65584) }
    ensures { length half.new ≡ 65584 }
{
    show_kinds(rt, c, half, i);
    show_values(rt, c, half, i);
    show_bytes(rt, c, half, i);
    show_ends(rt, c, half, i);
}

// A half with a checkpoint of the longer form, changed.
fn show_longer(rt: &impl Print, short: bool) {
    let c = a_case(short, 0, 5, 8, 4, 3, 48);
    let mut half = [0u8; HALF];
    stage(c, &mut half);
    let _ = rt.write_all(b"the longer head, ");
    print_key(rt, short);
    show_change(rt, "as it was", c, &mut half, HALF, 0, 0x00);
    show_change(rt, "packet number of kind 1", c, &mut half, HALF, 0, 0x40);
    show_change(rt, "packet number of kind 2", c, &mut half, HALF, 0, 0x80);
    show_change(rt, "packet number of kind 3", c, &mut half, HALF, 0, 0xC0);
    show_change(rt, "packet number 6", c, &mut half, HALF, 3, 6);
    show_changes(rt, c, &mut half, 4);
}

// The same of the older form, whose firmware took keys of 32 bytes alone; the checkpoint comes from standard input.
fn show_older(rt: &(impl Input + Print)) {
    let c = a_case(false, 0, 0, 8, 4, 3, 48);
    let mut half = [0u8; HALF];
    read_full(&mut rt.reader(), &mut half);
    let _ = rt.write_all(b"the older head, ");
    print_key(rt, false);
    show_change(rt, "as it was", c, &mut half, HALF, 0, 0x40);
    show_changes(rt, c, &mut half, 0);
}

fn main(rt: HostRuntime) {
    for_each_case(&rt, |rt, c| show(rt, c));
    for_each_case(&rt, |rt, c| show_reading(rt, c));
    show_longer(&rt, false);
    show_longer(&rt, true);
    show_older(&rt);
}
