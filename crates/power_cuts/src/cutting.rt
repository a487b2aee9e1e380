// A cut into a store: what it leaves in the memories (document 01, "Runs, cuts and the book").
use crate::plan::Left;
use demo_book::values::{HALF, PAGES, SLOTS, record};
use keeper::{Job, Phase};
use octets::blank;

// The next number of a fixed sequence.
fn next_noise(x: u32) -> u32 {
    x.wrapping_mul(1_664_525).wrapping_add(1_013_904_223)
}

// Byte i of n bytes of a store that was cut into.
fn left_byte(left: Left, i: usize, n: usize, before: u8, stored: u8, noise: u32) -> u8 {
    match left {
        Left::Nothing => before,
        Left::Half => if i < n / 2 { stored } else { before },
        Left::Whole => stored,
        Left::Zeros => 0,
        Left::Ones => 0xFF,
        Left::Noise => noise.to_be_bytes()[0],
    }
}

// Leaves in a place of a memory what a cut left of a store.
fn leave(left: Left, seed: u32, stored: &[u8], place: &mut [u8]) {
    let mut noise = seed;
    for (i, (byte, new)) in place.iter_mut().zip(stored).enumerate() {
        noise = next_noise(noise);
        *byte = left_byte(left, i, stored.len(), *byte, *new, noise);
    }
}

// Cuts into a store at an offset of a memory, and answers whether the place is blank then.
fn cut_at(left: Left, seed: u32, stored: &[u8], memory: &mut [u8], at: usize) -> bool {
    let Some(rest) = memory.get_mut(at..) else {
        return false;
    };
    let Some(place) = rest.get_mut(..stored.len()) else {
        return false;
    };
    leave(left, seed, stored, place);
    blank(place)
}

fn cut_erase(left: Left, seed: u32, ring: &mut [u8], page: usize) -> bool {
    cut_at(left, seed, &[0xFFu8; 32], ring, page % PAGES * 32)
}

fn cut_word(
    left: Left,
    seed: u32,
    fram: &mut [u8],
    half: usize,
    staging: &[u8],
    word: usize,
) -> bool {
    let at = word % 15 * 4;
    let Some(stored) = staging.get(at..at + 4) else {
        return false;
    };
    cut_at(left, seed, stored, fram, half % 2 * HALF + at)
}

// A slot cut into holds the whole record or is still blank.
fn cut_record(left: Left, ring: &mut [u8], job: Job) -> bool {
    let bytes = record(job.nonce, job.half);
    let at = (job.page % PAGES * SLOTS + job.slot % SLOTS) * 16;
    let left = match left {
        Left::Whole => Left::Whole,
        _ => Left::Nothing,
    };
    cut_at(left, 0, &bytes, ring, at)
}

// The power fails in the store of the job's phase. Answers whether the word, slot or page is blank then.
pub fn cut_into(
    job: Job,
    left: Left,
    seed: u32,
    ring: &mut [u8],
    fram: &mut [u8],
    staging: &[u8],
) -> bool {
    match job.phase {
        Phase::EraseFirst(page) | Phase::EraseAfter(page) => cut_erase(left, seed, ring, page),
        Phase::Words(word) => cut_word(left, seed, fram, job.half, staging, word),
        Phase::Record => cut_record(left, ring, job),
        Phase::Done => false,
    }
}
