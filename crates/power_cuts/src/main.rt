// A repairer's test: a unit's supply is cut forty times, and after each cut the unit powers up. Writes a line for each cut.
#![tactic(auto)]

mod bench;
mod cutting;
mod images;
mod plan;
mod print;
mod tally;
mod unit;

use bench::cut_all;
use bench_io::{Console, complain};
use images::last_cut;
use print::print;

fn print_heading(rt: &impl Print) {
    print(
        rt,
        b"A ring of 3 pages of 2 slots, a FRAM of 128 bytes. Save 12 saves 'volume 2' and, sealed, 'timer 12'.\n",
    );
    print(
        rt,
        b"packet: a save hears the packet of its own number; from save 42 on only repeats of 41, which keep the restarts.\n",
    );
    print(
        rt,
        b"left: what the cut left of the word, slot or page being stored; '-': it fell between two calls.\n",
    );
    print(
        rt,
        b"same: byte for byte the checkpoint recorded last, by a book that never sees the memories.\n\n",
    );
    print(
        rt,
        b"cut  call        power failed in    left     the ring then reads                resumed          restarts packet\n",
    );
}

fn main(rt: HostRuntime) {
    let Some(last) = last_cut(&rt) else {
        complain(
            &rt,
            b"usage: power_cuts [RING FRAM [CUT]], two files to write and a number from 1 to 40\n",
        );
        return;
    };
    let mut ring = [0xFFu8; 96];
    let mut fram = [0u8; 128];
    print_heading(&rt);
    let tally = cut_all(&rt, last, &mut ring, &mut fram);
    tally.print(&rt, last);
}
