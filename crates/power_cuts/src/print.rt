// The columns of a line.
use crate::plan::Left;
use crate::unit::Unit;
use demo_book::values::{PAGES, SLOTS};
use keeper::{Job, Phase};
use ring_line::ring_line;
use std::str;

// Writes bytes as they are.
pub fn print(rt: &impl Print, text: &[u8]) {
    let _ = rt.write_all(text);
}

// The number of a cut.
pub fn print_cut(rt: &impl Print, k: usize) {
    let _ = print!(rt; " {k:2}  ");
}

// The restarts and the packet number of what was recorded last, at the end of a line.
pub fn print_counts(rt: &impl Print, name: &str, unit: &Unit) {
    let _ = print!(rt; "{name}{}        {:2}\n", unit.restarts(), unit.packet());
}

// The save that the power failed in.
pub fn print_save(rt: &impl Print, recorded: bool, n: usize) {
    if recorded {
        let _ = print!(rt; "save {n:2}     ");
    } else {
        print(rt, b"first save  ");
    }
}

// The store that the power failed in.
fn print_store(rt: &impl Print, job: Job) {
    let _ = match job.phase {
        Phase::EraseFirst(page) => print!(rt; "erase first, pg {page}  "),
        Phase::Words(word) => {
            let half = if job.half == 0 { 'A' } else { 'B' };
            print!(rt;
                "{half} word {:2} of {:2}    ",
                word % 16 + 1,
                job.length / 4
            )
        }
        Phase::Record => print!(rt; "the record         "),
        Phase::EraseAfter(page) => print!(rt; "erase after, pg {page}  "),
        Phase::Done => print!(rt; "after the end      "),
    };
}

// The store that would have come next.
fn print_before(rt: &impl Print, job: Job) {
    let _ = match job.phase {
        Phase::EraseFirst(_) | Phase::EraseAfter(_) => print!(rt; "before the erase   "),
        Phase::Words(word) => print!(rt; "before word {:2}     ", word % 16 + 1),
        Phase::Record => print!(rt; "before the record  "),
        Phase::Done => print!(rt; "after the end      "),
    };
}

// Where the power failed, and what that left of the store.
pub fn print_place(rt: &impl Print, job: Job, left: Option<Left>) {
    match left {
        Some(left) => {
            print_store(rt, job);
            let _ = print!(rt; "{left:9}");
        }
        None => {
            print_before(rt, job);
            print(rt, b"-        ");
        }
    }
}

// What ringview says of the ring, in 35 columns.
pub fn print_ring(rt: &impl Print, ring: &[u8]) {
    let line = ring_line(ring, PAGES, SLOTS);
    if let Ok(text) = str::from_utf8(line.as_bytes()) {
        let _ = print!(rt; "{:35}", text.trim_end());
    }
}
