// An image as a text of Intel HEX.
ghost use Rattle.std.specs.Prelude.{◌≡◌, false, ◌+◌, ◌*◌, ◌/◌, ◌%◌, ◌-◌, ◌≤◌, ◌<◌, min, length};
ghost use Rattle.octets.specs.Limits.{image_limit, data_per_line};
ghost use Rattle.hex_lines.specs.Inner.{Wrote};
ghost use Rattle.intel_hex.specs.Export.{upper_part, data_part, block, place, line_count, hex_text, image_wrong, export, exported_as};
ghost use Rattle.intel_hex.specs.Inner.{text_length};

use crate::image_wrong;
use hex_lines::write::{put_line_at, two_bytes};
use hex_lines::{BOUNDARY, DATA_LINE, END_LINE, LEAST_FED, UPPER_LINE};
use octets::limits::DATA_PER_LINE;
use stops::Stop;

// Writes the type 04 line before data line k, if there is one, from offset at on, and answers where it ends.
fn put_upper(text: &mut [u8], at: usize, k: usize) -> usize
    requires { (place k < image_limit) × (at + length (upper_part k) ≤ length text.old) }
    ensures { Wrote text.old at (upper_part k) text.new result }
{
    let from = DATA_PER_LINE * k;
    if from % BOUNDARY != 0 {
        return at;
    }
    let bits = two_bytes(from / BOUNDARY);
    put_line_at(text, at, UPPER_LINE, 0, &bits)
}

// Where the data line from an offset on ends in an image of n bytes.
fn data_end(from: usize, n: usize) -> usize
    requires { from ≤ n }
    ensures { result ≡ min (from + data_per_line) n }
{
    // A compiler makes code of its own for the full lines of this branch, and not of `min`.
    if n - from < DATA_PER_LINE {
        n
    } else {
        from + DATA_PER_LINE
    }
}

// Writes data line k from offset at on, and answers where it ends.
fn put_data(text: &mut [u8], at: usize, image: &[u8], k: usize) -> usize
    requires { (length image.now ≤ image_limit) × (place k < length image.now) × (at + length (data_part image.now k) ≤ length text.old) }
    ensures { Wrote text.old at (data_part image.now k) text.new result }
{
    let from = DATA_PER_LINE * k;
    let end = data_end(from, image.len());
    put_line_at(text, at, DATA_LINE, from % BOUNDARY, &image[from..end])
}

// Writes data line k with the type 04 line before it from offset at on, and answers where they end.
fn put_block(text: &mut [u8], at: usize, image: &[u8], k: usize) -> usize
    requires { (length image.now ≤ image_limit) × (place k < length image.now) × (at + length (block image.now k) ≤ length text.old) }
    ensures { Wrote text.old at (block image.now k) text.new result }
{
    let next = put_upper(text, at, k);
    put_data(text, next, image, k)
}

// How many data lines n bytes make.
fn line_count(n: usize) -> usize
    requires { n ≤ image_limit }
    ensures { result ≡ line_count n }
{
    n.div_ceil(DATA_PER_LINE)
}

// How long the text of an image of n bytes is. A type 04 line has 16 bytes with its line feed.
fn text_length(n: usize) -> usize
    requires { n ≤ image_limit }
    ensures { result ≡ text_length n }
{
    16 * n.div_ceil(BOUNDARY) + (LEAST_FED * line_count(n) + 2 * n) + LEAST_FED
}

// Writes the text of an image to the front of a buffer that has room for it, and answers its length.
fn put_text(image: &[u8], text: &mut [u8]) -> usize
    requires { (image_wrong (length image.now) ≡ false) × (length (hex_text image.now) ≤ length text.old) }
    ensures { Wrote text.old 0 (hex_text image.now) text.new result }
{
    let n = line_count(image.len());
    let mut at = 0;
    // A data line goes by its number, from which its address follows.
    for k in 0..n {
        at = put_block(text, at, image, k);
    }
    put_line_at(text, at, END_LINE, 0, b"")
}

// Writes an image as Intel HEX to the front of text, and answers the length of what it wrote. On a stop text stays as it was.
pub fn export_image(image: &[u8], text: &mut [u8]) -> Result<usize, Stop>
    ensures { exported_as result text.new ≡ export image.now text.old }
{
    let n = image.len();
    if image_wrong(n) {
        return Err(Stop::FramSize);
    }
    if text.len() < text_length(n) {
        return Err(Stop::BufferSize);
    }
    Ok(put_text(image, text))
}
