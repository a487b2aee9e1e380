// Every shape of a readable ring of a small size (document 02, A.9). With no arguments it writes ringview's line of each ring of 3 pages of
// 2 slots; with PAGES and SLOTS those of that size; with a NUMBER besides, counted from 0, that ring itself, as bytes. On a refusal nothing goes
// to standard output, and `refused` with the stop's number to standard error.
#![tactic(auto)]

ghost use Rattle.std.specs.Prelude.{◌≡◌, ◌+◌, ◌*◌, ◌≤◌, length, IfSome};
ghost use Rattle.octets.specs.Limits.{slot_length, shape_pages_limit, shape_slots_limit};

use bench_io::{Console, argument_count, complain, number_argument, refuse, write_out};
use octets::limits::{PAGES_LEAST, SHAPE_PAGES_LIMIT, SHAPE_SLOTS_LIMIT, SLOT_LENGTH, SLOTS_LEAST};
use ring_line::ring_line;
use ring_shapes::ring_shape;
use std::env::Env;
use stops::Stop;

// The number of the last ring of the largest size.
const LAST: usize = SHAPE_PAGES_LIMIT * (SHAPE_SLOTS_LIMIT + 1);

// Room for one page and one slot more than are taken, as a number that is too large comes as one more than the most.
const ROOM: usize = SLOT_LENGTH * (SHAPE_PAGES_LIMIT + 1) * (SHAPE_SLOTS_LIMIT + 1);

// The pages and slots that the arguments name, if they are numbers; 3 and 2 where there are no arguments.
fn size_named(rt: &impl Env, count: usize) -> Option<(usize, usize)>
    ensures { IfSome result (λ size. (size.0 ≤ shape_pages_limit + 1) × (size.1 ≤ shape_slots_limit + 1)) }
{
    if count < 2 {
        return Some((PAGES_LEAST, SLOTS_LEAST));
    }
    let pages = number_argument(rt, 1, SHAPE_PAGES_LIMIT)?;
    let slots = number_argument(rt, 2, SHAPE_SLOTS_LIMIT)?;
    Some((pages, slots))
}

// How many bytes such a ring has.
fn ring_length(pages: usize, slots: usize) -> usize
    requires { (pages ≤ shape_pages_limit + 1) × (slots ≤ shape_slots_limit + 1) }
    ensures { result ≤ slot_length * (shape_pages_limit + 1) * (shape_slots_limit + 1) }
{
    SLOT_LENGTH * (pages * slots)
}

// Makes a ring in the buffer and writes its line.
fn write_line(
    rt: &impl Console,
    pages: usize,
    slots: usize,
    number: usize,
    ring: &mut [u8],
) -> Result<(), Stop> {
    ring_shape(pages, slots, number, ring)?;
    let line = ring_line(ring, pages, slots);
    let bytes = line.bytes;
    let length = line.length;
    write_out(rt, &bytes[..length]);
    Ok(())
}

// Writes the line of every ring of a size, up to the number that is past the last.
fn write_lines(rt: &impl Console, pages: usize, slots: usize, ring: &mut [u8]) {
    for number in 0..LAST + 1 {
        if let Err(stop) = write_line(rt, pages, slots, number, ring) {
            if number == 0 {
                refuse(rt, stop);
            }
            return;
        }
    }
}

// Writes a ring as bytes.
fn write_ring(rt: &impl Console, pages: usize, slots: usize, number: usize, ring: &mut [u8]) {
    match ring_shape(pages, slots, number, ring) {
        Ok(()) => write_out(rt, ring),
        Err(stop) => refuse(rt, stop),
    }
}

fn usage(rt: &impl Console) {
    complain(
        rt,
        b"usage: ring_shapes_view [PAGES SLOTS [NUMBER]]; 3 by 2 if no size is given\n",
    );
}

// The whole run, in a buffer for the ring.
fn run(rt: &impl Console, room: &mut [u8])
    requires { length room.old ≡ slot_length * (shape_pages_limit + 1) * (shape_slots_limit + 1) }
{
    // The program's own name is the first of them.
    let count = argument_count(rt);
    let Some((pages, slots)) = size_named(rt, count) else {
        usage(rt);
        return;
    };
    if count > 4 {
        usage(rt);
        return;
    }
    let n = ring_length(pages, slots);
    if count < 4 {
        write_lines(rt, pages, slots, &mut room[..n]);
        return;
    }
    match number_argument(rt, 3, LAST) {
        Some(number) => write_ring(rt, pages, slots, number, &mut room[..n]),
        None => usage(rt),
    }
}

fn main(rt: HostRuntime) {
    let mut room = [0u8; ROOM];
    run(&rt, &mut room);
}
