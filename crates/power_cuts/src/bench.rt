// The bench: cuts the unit's power, powers it up again, and writes a line for each cut.
use crate::cutting::cut_into;
use crate::images::write_images_if;
use crate::plan::{Cut, Left, cut_again, cut_number};
use crate::print::{print, print_counts, print_cut, print_place, print_ring, print_save};
use crate::tally::Tally;
use crate::unit::{Unit, memories};
use bench_io::Console;
use demo_book::values::{PART, key};
use keeper::{Memories, open_part};
use octets::fill;
use octets::limits::PART_LIMIT;
use std::fs::Files;
use stops::{Stop, stop_number};

fn save_whole(unit: &mut Unit, ring: &mut [u8], fram: &mut [u8]) {
    let mut staging = [0u8; 64];
    unit.begin_save(&memories(ring, fram), &mut staging);
    unit.run(20, ring, fram, &staging);
}

// Begins the call that is to be cut, and writes which.
fn begin(
    rt: &impl Print,
    unit: &mut Unit,
    resumes: bool,
    memories: &Memories<'_, '_>,
    staging: &mut [u8],
) {
    if resumes {
        print(rt, b"power-up    ");
        let mut state = [0u8; PART_LIMIT];
        unit.begin_power_up(memories, staging, &mut state);
    } else {
        let recorded = unit.book.entry.is_some();
        unit.begin_save(memories, staging);
        print_save(rt, recorded, unit.saves);
    }
}

// Runs the unit up to a cut: whole saves, and the call that is to be cut with its stores before the cut.
fn run_to(
    rt: &impl Print,
    unit: &mut Unit,
    c: Cut,
    ring: &mut [u8],
    fram: &mut [u8],
    staging: &mut [u8],
) {
    for _ in 0..c.saves {
        save_whole(unit, ring, fram);
    }
    begin(rt, unit, c.resumes, &memories(ring, fram), staging);
    unit.run(c.stores, ring, fram, staging);
}

// Cuts the power, and writes where and what that left of the store.
fn cut_power(
    rt: &impl Print,
    unit: &mut Unit,
    left: Option<Left>,
    seed: u32,
    ring: &mut [u8],
    fram: &mut [u8],
    staging: &[u8],
) {
    print_place(rt, unit.job, left);
    match left {
        Some(left) => unit
            .book
            .cut_into(cut_into(unit.job, left, seed, ring, fram, staging)),
        None => unit.book.cut(),
    }
}

// Runs the unit into cut k.
fn cut_unit(rt: &impl Print, unit: &mut Unit, k: usize, ring: &mut [u8], fram: &mut [u8]) {
    print_cut(rt, k);
    let c = cut_number(k);
    let mut staging = [0u8; 64];
    run_to(rt, unit, c, ring, fram, &mut staging);
    let seed = u32::try_from(k).unwrap_or(0);
    cut_power(rt, unit, c.left, seed, ring, fram, &staging);
}

fn print_resumed(rt: &impl Print, unit: &Unit, memories: &Memories<'_, '_>, state: &[u8]) {
    print(rt, open_part(memories, &key()));
    print(rt, b" ");
    if let Some(secret) = state.get(..PART) {
        print(rt, secret);
    }
    print_counts(rt, if unit.agrees { " same  " } else { " DIFFERS  " }, unit);
}

fn print_stopped(rt: &impl Print, stop: Stop, unit: &Unit) {
    match stop {
        Stop::RingBlank => print(rt, b"nothing recorded: stop 6\n"),
        _ => {
            let _ = print!(rt; "ALERT: stop {}", stop_number(stop));
            print_counts(rt, "          ", unit);
        }
    }
    if !unit.agrees {
        print(rt, b"     the stop DIFFERS from the book's\n");
    }
}

// At the alert the repairer tries a nonce that is used, and then takes a new unit: its ring is blank, and the FRAM is left as it is.
fn alert(
    rt: &impl Print,
    unit: &mut Unit,
    ring: &mut [u8],
    fram: &[u8],
    staging: &mut [u8],
    state: &mut [u8],
) {
    print(
        rt,
        b"     with the nonce of the newest record                                        ",
    );
    unit.try_used_nonce(&memories(ring, fram), staging, state);
    if let Some(stop) = unit.stop {
        print_stopped(rt, stop, unit);
    }
    print(rt, b"     a new unit, its ring blank\n");
    fill(ring, 0xFF);
    unit.replace();
}

// A power-up that runs to its end, or stops. What it left is held against the book.
fn power_up(rt: &impl Print, unit: &mut Unit, ring: &mut [u8], fram: &mut [u8]) {
    let mut staging = [0u8; 64];
    let mut state = [0u8; PART_LIMIT];
    unit.begin_power_up(&memories(ring, fram), &mut staging, &mut state);
    match unit.stop {
        None => {
            unit.run(20, ring, fram, &staging);
            let memories = memories(ring, fram);
            unit.compare(&memories, &state);
            print_resumed(rt, unit, &memories, &state);
        }
        Some(stop) => {
            print_stopped(rt, stop, unit);
            if !matches!(stop, Stop::RingBlank) {
                alert(rt, unit, ring, fram, &mut staging, &mut state);
            }
        }
    }
}

// What follows cut k: the power-up, unless the next cut falls into that. The images are those that the last cut left.
fn resume<R: Console + Files>(
    rt: &R,
    unit: &mut Unit,
    k: usize,
    last: usize,
    ring: &mut [u8],
    fram: &mut [u8],
) {
    print_ring(rt, ring);
    write_images_if(rt, k == last, ring, fram);
    if cut_again(k) {
        print(rt, b"power-up cut again\n");
    } else {
        power_up(rt, unit, ring, fram);
    }
}

// The cuts up to the last.
pub fn cut_all<R: Console + Files>(rt: &R, last: usize, ring: &mut [u8], fram: &mut [u8]) -> Tally {
    let mut unit = Unit::new();
    let mut tally = Tally::new();
    for k in 1..=last {
        unit.agrees = true;
        cut_unit(rt, &mut unit, k, ring, fram);
        resume(rt, &mut unit, k, last, ring, fram);
        tally.count(k, &unit);
    }
    tally
}
