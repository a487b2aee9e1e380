// A text of Intel HEX read into an image: one pass judges the text, and one stores its data.
ghost use Rattle.std.specs.Prelude.{◌≡◌, ◌+◌, ◌*◌, ◌^◌, ◌≤◌, ◌<◌, length};
ghost use Rattle.std.proofs.Math.Option.{none};
ghost use Rattle.stops.specs.View.{check_number};
ghost use Rattle.hex_lines.specs.Format.{boundary, data_line};
ghost use Rattle.hex_lines.specs.Line.{kind, data_length};
ghost use Rattle.hex_lines.specs.Inner.{Begins, LineOf};
ghost use Rattle.intel_hex.specs.Import.{lines_of, data_place, misplaced, start, after, image_after, text_stop, stored, import, imported_as};
ghost use Rattle.intel_hex.specs.Inner.{checks, JudgedAs};

use crate::image_wrong;
use hex_digits::decode;
use hex_lines::read::{Line, line_at, line_of, number};
use hex_lines::{BOUNDARY, DATA_AT, DATA_LINE, LEAST_LINE, UPPER_LINE};
use stops::{Stop, StopIf};

// What the lines so far have set: the upper address bits, the first address above the data, and whether the end line has been read.
#[derive(Clone, Copy)]
pub struct Reading {
    pub upper: usize,
    pub next: usize,
    pub ended: bool,
}

// What one line more gives, if it does not stop: the reading behind it, and its length with its end.
#[derive(Clone, Copy)]
pub struct Judged {
    pub reading: Reading,
    pub length: usize,
}

// Where nothing has been read.
fn start() -> Reading
    ensures { result ≡ start }
{
    Reading {
        upper: 0,
        next: 0,
        ended: false,
    }
}

// Whether the data of a line stand outside the image, past a 64 KiB boundary, or not above the data before.
fn misplaced(size: usize, place: usize, address: usize, n: usize, next: usize) -> bool
    requires { (place < 2 ^ 32) × (address < 2 ^ 32) × (n < 256) }
    ensures { result ≡ misplaced size place address n next }
{
    (size < place + n) | (BOUNDARY < address + n) | (place < next)
}

// Where the data of a line go.
fn data_place(reading: Reading, address: usize) -> usize
    requires { (reading.upper < boundary) × (address < boundary) }
    ensures { (result ≡ reading.upper * boundary + address) × (result < 2 ^ 32) }
{
    reading.upper * BOUNDARY + address
}

// The checks of a line that is not malformed.
fn line_check(line: Line, wrong: bool, reading: Reading, size: usize) -> Result<(), Stop>
    requires { (reading.upper < boundary) × (line.address < boundary) × (line.length < 256) }
    ensures { check_number result ≡ checks size reading line.kind line.address line.length wrong }
{
    let address = line.address;
    let n = line.length;
    let place = data_place(reading, address);
    let data = line.kind == DATA_LINE;
    Ok(())
        .stop_if(reading.ended, Stop::BadLine)
        .stop_if(wrong, Stop::BadChecksum)
        .stop_if(
            data & misplaced(size, place, address, n, reading.next),
            Stop::DataMisplaced,
        )
}

// The reading behind the line that s begins with.
fn after(s: &[u8], line: Line, reading: Reading) -> Reading
    requires { Begins s.now × LineOf s.now line × (reading.upper < boundary) }
    ensures { (result ≡ after reading s.now) × (result.upper < boundary) }
{
    match line.kind {
        DATA_LINE => Reading {
            next: data_place(reading, line.address) + line.length,
            ..reading
        },
        UPPER_LINE => Reading {
            upper: number(s, DATA_AT),
            ..reading
        },
        _ => Reading {
            ended: true,
            ..reading
        },
    }
}

// The length of a line with its end.
fn line_length(line: Line) -> usize
    requires { (line.length < 256) × (line.tail < 3) }
    ensures { result ≡ 11 + 2 * line.length + line.tail }
{
    LEAST_LINE + 2 * line.length + line.tail
}

// One line more, which s begins with, for an image of so many bytes.
fn judge_line(s: &[u8], reading: Reading, size: usize) -> Result<Judged, Stop>
    requires { (0 < length s.now) × (reading.upper < boundary) }
    ensures { JudgedAs s.now reading size result }
{
    let Some((line, wrong)) = line_at(s) else {
        return Err(Stop::BadLine);
    };
    line_check(line, wrong, reading, size)?;
    Ok(Judged {
        reading: after(s, line, reading),
        length: line_length(line),
    })
}

// The check of a text for an image of so many bytes.
fn text_check(text: &[u8], size: usize) -> Result<(), Stop>
    ensures { check_number result ≡ text_stop size start (lines_of text.now) }
{
    let mut reading = start();
    let mut rest = text;
    while !rest.is_empty() {
        let judged = judge_line(rest, reading, size)?;
        reading = judged.reading;
        rest = &rest[judged.length..];
    }
    Ok(()).stop_if(!reading.ended, Stop::BadLine)
}

// Stores the data of the line that s begins with, if it is a data line.
fn store_line(s: &[u8], line: Line, reading: Reading, image: &mut [u8])
    requires { Begins s.now × LineOf s.now line × (reading.upper < boundary) × (kind s.now ≡ data_line → data_place reading s.now + data_length s.now ≤ length image.old) }
    ensures { image.new ≡ image_after reading image.old s.now }
{
    if line.kind == DATA_LINE {
        let place = data_place(reading, line.address);
        let n = line.length;
        decode(&s[DATA_AT..], n, &mut image[place..]);
    }
}

// Stores the data of a text that has been judged.
fn store_text(text: &[u8], image: &mut [u8])
    requires { text_stop (length image.old) start (lines_of text.now) ≡ none }
    ensures { image.new ≡ stored start image.old (lines_of text.now) }
{
    let mut reading = start();
    let mut rest = text;
    while !rest.is_empty() {
        let line = line_of(rest);
        store_line(rest, line, reading, image);
        reading = after(rest, line, reading);
        rest = &rest[line_length(line)..];
    }
}

// Stores the data of a text of Intel HEX in an image. Bytes that no line names keep their contents; on a stop all do.
pub fn import_image(text: &[u8], image: &mut [u8]) -> Result<(), Stop>
    ensures { imported_as result image.new ≡ import text.now image.old }
{
    if image_wrong(image.len()) {
        return Err(Stop::FramSize);
    }
    text_check(text, image.len())?;
    store_text(text, image);
    Ok(())
}
