// Which dump came before which (document 02, A.11). Reads 1 to 64 entries of 32 bytes, a checkpoint's previous tag and then its own, from standard
// input and writes their positions in chain order, counted from 0, one a line; or `refused` with the stop's number. Where standard input
// cannot be read, standard error says why. The exit status does not tell.
#![tactic(auto)]

ghost use Rattle.std.specs.Prelude.{◌≡◌, ◌+◌, ◌*◌, ◌≤◌, length};
ghost use Rattle.octets.specs.Limits.{entry_length, entries_limit};

use bench_io::{Console, answer_refused, not_written, read_open};
use chain::chain_order;
use octets::limits::{ENTRIES_LIMIT, ENTRY_LENGTH};
use octets::part;

// One byte more than the most entries have, so that more are seen to be more.
const ROOM: usize = ENTRY_LENGTH * ENTRIES_LIMIT + 1;

// Writes numbers, one a line, or complains once.
fn write_lines(rt: &impl Console, numbers: &[u8]) {
    for number in numbers {
        if rt.println(*number).is_err() {
            not_written(rt);
            return;
        }
    }
}

// The whole run, in buffers for the entries and their positions.
fn run(rt: &impl Console, entries: &mut [u8], positions: &mut [u8])
    requires { (length entries.old ≤ entry_length * entries_limit + 1) × (length positions.old ≡ entries_limit) }
{
    let Some(length) = read_open(
        rt,
        &mut rt.reader(),
        b"entries: ",
        b"standard input",
        entries,
    ) else {
        return;
    };
    match chain_order(&entries[..length], positions) {
        Ok(()) => write_lines(rt, part(positions, 0, length / ENTRY_LENGTH)),
        Err(stop) => answer_refused(rt, stop),
    }
}

fn main(rt: HostRuntime) {
    let mut entries = [0u8; ROOM];
    let mut positions = [0u8; ENTRIES_LIMIT];
    run(&rt, &mut entries, &mut positions);
}
