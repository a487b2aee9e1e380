// Checks what the assembly house programs (document 02, A.10). The arguments are the ring's pages and slots and the names of three files with
// the bytes of the ring, of the FRAM and of the key. It writes `accepted`, or `refused` with the stop's number. Where a file cannot be read,
// nothing is checked, and standard error says which and why. The exit status does not tell.
#![tactic(auto)]

ghost use Rattle.std.specs.Prelude.{IfSome};
ghost use Rattle.bench_io.specs.Read.{ReadInto};

use bench_io::{
    Console, answer_refused, argument_count, complain, not_read, number_argument, open_read,
    read_open, write_out,
};
use factory::factory_check;
use memories::Memories;
use octets::limits::{FRAM_LIMIT, LONG_KEY, PAGES_LIMIT, SLOT_LENGTH, SLOTS_LIMIT};
use std::fs::Files;
use std::io;

// One byte more than each may have, so that a longer file is seen to be longer.
const RING_ROOM: usize = SLOT_LENGTH * PAGES_LIMIT * SLOTS_LIMIT + 1;

const FRAM_ROOM: usize = FRAM_LIMIT + 1;

const KEY_ROOM: usize = LONG_KEY + 1;

// Linux's number of a file name that is too long, and the longest that is read.
const NAME_TOO_LONG: i32 = 36;

const NAME_LIMIT: usize = 4096;

// Reads the file that argument i names, and answers how many of its bytes are in the buffer.
fn load<R: Console + Files>(rt: &R, i: usize, what: &[u8], buffer: &mut [u8]) -> Option<usize>
    ensures { IfSome result (ReadInto buffer.new) }
{
    let mut path = [0u8; NAME_LIMIT];
    let Ok(n) = rt.arg(i, &mut path) else {
        not_read(
            rt,
            what,
            b"name",
            io::Error::from_raw_os_error(NAME_TOO_LONG),
        );
        return None;
    };
    match open_read(rt, &path[..n]) {
        Ok(mut file) => read_open(rt, &mut file, what, &path[..n], buffer),
        Err(error) => {
            not_read(rt, what, &path[..n], error);
            None
        }
    }
}

// The whole run, in a buffer for each file. There is nothing to answer where the arguments are wrong or a file cannot be read.
fn run<R: Console + Files>(rt: &R, ring: &mut [u8], fram: &mut [u8], key: &mut [u8]) -> Option<()> {
    let (Some(pages), Some(slots), 6) = (
        number_argument(rt, 1, PAGES_LIMIT),
        number_argument(rt, 2, SLOTS_LIMIT),
        argument_count(rt),
    ) else {
        complain(
            rt,
            b"usage: factory_view PAGES SLOTS RING FRAM KEY, the last three being names of files\n",
        );
        return None;
    };
    let r = load(rt, 3, b"ring: ", ring)?;
    let f = load(rt, 4, b"FRAM: ", fram)?;
    let k = load(rt, 5, b"key: ", key)?;
    let memories = Memories {
        pages,
        slots,
        ring: &ring[..r],
        fram: &fram[..f],
    };
    match factory_check(&memories, &key[..k]) {
        Ok(()) => write_out(rt, b"accepted\n"),
        Err(stop) => answer_refused(rt, stop),
    }
    Some(())
}

fn main(rt: HostRuntime) {
    let mut ring = [0u8; RING_ROOM];
    let mut fram = [0u8; FRAM_ROOM];
    let mut key = [0u8; KEY_ROOM];
    let _ = run(&rt, &mut ring, &mut fram, &mut key);
}
