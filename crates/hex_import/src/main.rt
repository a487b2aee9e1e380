// Takes one argument, the length of an image in bytes as a decimal number, reads a text of Intel HEX from standard input and writes the
// image to standard output (document 02, A.1). Bytes that no line names are 0xFF, as in an erased image. On a refusal nothing goes to
// standard output, and `refused` with the stop's number to standard error.
#![tactic(auto)]

ghost use Rattle.std.specs.Prelude.{◌≡◌, ◌+◌, length};
ghost use Rattle.octets.specs.Limits.{image_limit};

use bench_io::{Console, argument_count, complain, number_argument, read_full, refuse, write_out};
use intel_hex::import_image;
use octets::limits::IMAGE_LIMIT;

// The longest text that is taken.
const TEXT_LIMIT: usize = 4_194_304;

// Writes the image that a text makes of an erased one.
fn import(rt: &impl Console, text: &[u8], image: &mut [u8]) {
    match import_image(text, image) {
        Ok(()) => write_out(rt, image),
        Err(stop) => refuse(rt, stop),
    }
}

// The whole run, in a buffer for the text and an erased image.
fn run(rt: &impl Console, text: &mut [u8], image: &mut [u8])
    requires { length image.old ≡ image_limit + 1 }
{
    let (Some(size), 2) = (number_argument(rt, 1, IMAGE_LIMIT), argument_count(rt)) else {
        complain(rt, b"usage: hex_import SIZE, the image's length in bytes\n");
        return;
    };
    let n = read_full(&mut rt.reader(), text);
    if n > TEXT_LIMIT {
        complain(rt, b"the text is longer than 4,194,304 bytes\n");
        return;
    }
    import(rt, &text[..n], &mut image[..size]);
}

fn main(rt: HostRuntime) {
    // One byte more than is taken shows a text or a size that is too large.
    let mut text = [0u8; TEXT_LIMIT + 1];
    let mut image = [0xFFu8; IMAGE_LIMIT + 1];
    run(&rt, &mut text, &mut image);
}
