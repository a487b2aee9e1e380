// Reads an image of 1 to 262,144 bytes from standard input and writes it as Intel HEX to standard output (document 02, A.1).
// Another length is refused: nothing goes to standard output, and `refused 2` to standard error.
#![tactic(auto)]

use bench_io::{Console, read_full, refuse, write_out};
use intel_hex::export_image;
use octets::limits::IMAGE_LIMIT;

// The text of the longest image: 16,384 data lines of 44 bytes, 4 type 04 lines of 16, and the end line of 12.
const TEXT_LIMIT: usize = 720_972;

// Writes an image as Intel HEX.
fn export(rt: &impl Console, image: &[u8], text: &mut [u8]) {
    match export_image(image, text) {
        Ok(written) => write_out(rt, &text[..written]),
        Err(stop) => refuse(rt, stop),
    }
}

// The whole run, in buffers for the image and the text.
fn run(rt: &impl Console, image: &mut [u8], text: &mut [u8]) {
    let n = read_full(&mut rt.reader(), image);
    export(rt, &image[..n], text);
}

fn main(rt: HostRuntime) {
    // One byte more than the longest image has shows an input that is too long.
    let mut image = [0u8; IMAGE_LIMIT + 1];
    let mut text = [0u8; TEXT_LIMIT];
    run(&rt, &mut image, &mut text);
}
