// The arguments: the names of two files for the images of ring and FRAM, and the number of the last cut.

ghost use Rattle.std.specs.Prelude.{◌≤◌, IfSome};

use crate::plan::CUTS;
use bench_io::{Console, argument_count, fail, file_name};
use std::env::Env;
use std::fs::Files;
use std::{fs, io};

// The longest name of a file that is read.
const NAME_LIMIT: usize = 4096;

// The value of a decimal digit.
fn digit_value(b: u8) -> Option<usize>
    ensures { IfSome result (λ n. n ≤ 9) }
{
    match b {
        b'0'..=b'9' => Some(usize::from(b - b'0')),
        _ => None,
    }
}

// The number from 1 to 40 that a text of one or two digits has.
fn number_of(text: &[u8]) -> Option<usize> {
    let n = match text {
        [ones] => digit_value(*ones)?,
        [tens, ones] => digit_value(*tens)? * 10 + digit_value(*ones)?,
        _ => return None,
    };
    if (1..=CUTS).contains(&n) {
        Some(n)
    } else {
        None
    }
}

// The number of the last cut, 40 where the arguments do not name one; none where they are wrong.
pub fn last_cut(rt: &impl Env) -> Option<usize> {
    match argument_count(rt) {
        0 | 1 | 3 => Some(CUTS),
        4 => {
            let mut text = [0u8; 8];
            let n = rt.arg(3, &mut text).ok()?;
            number_of(&text[..n])
        }
        _ => None,
    }
}

// Writes a file, and puts it in the place of one that there is.
fn write_file<R: Files>(rt: &R, name: &[u8], image: &[u8]) -> io::Result<()> {
    fs::write(rt, file_name(name)?, image)
}

fn write_image<R: Console + Files>(rt: &R, argument: usize, image: &[u8]) {
    let mut name = [0u8; NAME_LIMIT];
    let n = rt.arg(argument, &mut name).unwrap_or(0);
    if let Err(error) = write_file(rt, &name[..n], image) {
        fail(rt, &name[..n], error);
    }
}

// Writes the images at the last cut, where the arguments name files.
pub fn write_images_if<R: Console + Files>(rt: &R, last: bool, ring: &[u8], fram: &[u8]) {
    if last & (2 < argument_count(rt)) {
        write_image(rt, 1, ring);
        write_image(rt, 2, fram);
    }
}
