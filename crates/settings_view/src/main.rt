// The settings of a list by name (document 02, A.12). Reads a list, a checkpoint's open part, from standard input and writes a line for each of its
// words: `version`, `volume`, `alert delay` in seconds, and each other setting by its kind; or `refused` with the stop's number. Where
// standard input cannot be read or is longer than any open part, standard error says so. The exit status does not tell.
#![tactic(auto)]

use bench_io::{Console, answer_refused, complain, not_written, read_open};
use octets::limits::PART_LIMIT;
use settings::{ALERT_DELAY, LIST_VERSION, VOLUME, kind_at, settings_read, value_at};

// One byte more than the longest open part, so that more is seen to be more.
const ROOM: usize = PART_LIMIT + 1;

// Writes words, a number and what stands behind it; whether all was taken.
fn write_line(rt: &impl Print, words: &[u8], number: u32, end: &[u8]) -> bool {
    rt.write_all(words).is_ok() & rt.print(number).is_ok() & rt.write_all(end).is_ok()
}

// Writes the line of a word; whether all was taken.
fn write_word(rt: &impl Print, kind: u32, value: u32) -> bool {
    match kind {
        LIST_VERSION => write_line(rt, b"version ", value, b"\n"),
        VOLUME => write_line(rt, b"volume ", value, b"\n"),
        ALERT_DELAY => write_line(rt, b"alert delay ", value, b" s\n"),
        _ => write_line(rt, b"kind ", kind, b": ") & write_line(rt, b"", value, b"\n"),
    }
}

// Writes the lines of a list, or complains once.
fn write_words(rt: &impl Console, list: &[u8]) {
    // kind_at and value_at, of the library, name a word by its place.
    for i in 0..list.len() / 4 {
        if !write_word(rt, kind_at(list, i), value_at(list, i)) {
            not_written(rt);
            return;
        }
    }
}

// What is written of a list.
fn show(rt: &impl Console, list: &[u8]) {
    match settings_read(list) {
        Ok(_) => write_words(rt, list),
        Err(stop) => answer_refused(rt, stop),
    }
}

fn main(rt: HostRuntime) {
    let mut list = [0u8; ROOM];
    let Some(length) = read_open(
        &rt,
        &mut rt.reader(),
        b"list: ",
        b"standard input",
        &mut list,
    ) else {
        return;
    };
    if length > PART_LIMIT {
        complain(&rt, b"list: standard input is longer than an open part\n");
        return;
    }
    show(&rt, &list[..length]);
}
