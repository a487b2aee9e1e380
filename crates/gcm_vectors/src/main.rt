// Runs NIST's vectors for AES-128-GCM and AES-256-GCM, and cases at the limits of lengths, and says how many agree. A line of a file is a
// case, of fields in hexadecimal; a field '-' is empty, and a line that begins with '#' is a comment.
#![tactic(auto)]

ghost use Rattle.std.specs.Prelude.{◌≤◌, length};

use bench_io::{Console, read_file};
use hex_digits::decode;
use octets::{copy, same, word_at};
use std::fs::Files;
use stops::{Stop, stop_number};
use vectors::cut;

const LINE_FEED: u8 = 0x0A;

const SPACE: u8 = 0x20;

// The longest text or associated data of a case at the limits.
const LONGEST: usize = 65_537;

// Field k of a line.
fn field(line: &[u8], k: usize) -> &[u8] {
    let mut rest = line;
    for _ in 0..k {
        rest = cut(rest, SPACE).1;
    }
    cut(rest, SPACE).0
}

// Writes the bytes of field k to the front of out, and gives them; a field too long counts as empty.
fn decode_field<'a>(line: &[u8], k: usize, out: &'a mut [u8]) -> &'a [u8]
    ensures { length result.now ≤ length out.old }
{
    let digits = field(line, k);
    let n = digits.len() / 2;
    if n > out.len() {
        return &out[..0];
    }
    decode(digits, n, out);
    &out[..n]
}

// The number of a call's stop, and 0 where there is none.
fn number<T>(answer: &Result<T, Stop>) -> u32 {
    match answer {
        Ok(_) => 0,
        Err(stop) => stop_number(*stop),
    }
}

// Fields: key, nonce, associated data, text, encrypted text, tag. Nothing may be written behind the text.
fn seal_agrees(line: &[u8]) -> bool {
    let mut key = [0u8; 128];
    let mut nonce = [0u8; 128];
    let mut aad = [0u8; 128];
    let mut text = [0u8; 128];
    let mut want = [0u8; 128];
    decode_field(line, 4, &mut want);
    let mut tag = [0u8; 16];
    decode_field(line, 5, &mut tag);
    let mut out = [0u8; 128];
    let made = gcm::seal(
        decode_field(line, 0, &mut key),
        decode_field(line, 1, &mut nonce),
        decode_field(line, 2, &mut aad),
        decode_field(line, 3, &mut text),
        &mut out,
    );
    match made {
        Ok(given) => same(&given, &tag) & same(&out, &want),
        Err(_) => false,
    }
}

// The stop that a result names: none for 'ok', a tag that differs for 'fail'.
fn stop_of(res: &[u8]) -> u32 {
    if res.len() == 2 { 0 } else { 12 }
}

// The same fields, and the result; where it is 'fail' the text is empty, and nothing may be written.
fn open_agrees(line: &[u8]) -> bool {
    let mut key = [0u8; 128];
    let mut nonce = [0u8; 128];
    let mut aad = [0u8; 128];
    let mut want = [0u8; 128];
    decode_field(line, 3, &mut want);
    let mut text = [0u8; 128];
    let mut tag = [0u8; 128];
    let mut out = [0u8; 128];
    let answer = gcm::open(
        decode_field(line, 0, &mut key),
        decode_field(line, 1, &mut nonce),
        decode_field(line, 2, &mut aad),
        decode_field(line, 4, &mut text),
        decode_field(line, 5, &mut tag),
        &mut out,
    );
    (number(&answer) == stop_of(field(line, 6))) & same(&out, &want)
}

// The lengths of a case at the limits, of key, nonce, associated data, text, given tag and output.
#[derive(Clone, Copy)]
struct Lengths {
    key: usize,
    nonce: usize,
    aad: usize,
    text: usize,
    given: usize,
    room: usize,
    ghost short: { (key ≤ 65537) × (nonce ≤ 65537) × (aad ≤ 65537) × (text ≤ 65537) × (room ≤ 65537) },
}

// The number that field k has, and 0 where it is above the longest length.
fn length_of(line: &[u8], k: usize) -> usize
    ensures { result ≤ 65537 }
{
    let mut bytes = [0u8; 4];
    decode_field(line, k, &mut bytes);
    let n = word_at(&bytes, 0) as usize;
    if n > LONGEST { 0 } else { n }
}

fn lengths_of(line: &[u8]) -> Lengths {
    Lengths {
        key: length_of(line, 0),
        nonce: length_of(line, 1),
        aad: length_of(line, 2),
        text: length_of(line, 3),
        given: length_of(line, 4),
        room: length_of(line, 5),
    }
}

// The stop that field k has, as one byte.
fn stop_in(line: &[u8], k: usize) -> u32 {
    let mut byte = [0u8; 4];
    decode_field(line, k, &mut byte);
    u32::from(byte[0])
}

// The bytes that key, nonce, associated data and text are taken from: 7 times their offset, and 1.
fn pattern(p: &mut [u8]) {
    let mut b = 1u8;
    for x in p.iter_mut() {
        *x = b;
        b = b.wrapping_add(7);
    }
}

// Whether every byte is 0xEE, as before a call.
fn untouched(s: &[u8]) -> bool {
    s.iter().all(|b| *b == 0xEE)
}

// Whether all but the first n bytes of out are as before a call.
fn untouched_behind(out: &[u8], n: usize) -> bool {
    n <= out.len() && untouched(&out[n..])
}

// Whether out begins with n bytes of p, and the rest is as before a call.
fn begins(out: &[u8], p: &[u8], n: usize) -> bool {
    n <= p.len() && n <= out.len() && same(&out[..n], &p[..n]) && untouched(&out[n..])
}

// How many bytes a call may write: the text's, and none where it stops.
fn written(stop: u32, text: usize) -> usize
    ensures { result ≤ text }
{
    if stop == 0 { text } else { 0 }
}

// The tag that a sealing made, zeros where it stopped, if all is what the line says. Fields: the lengths, the stops of seal and open, and
// the tag.
fn seal_limit(line: &[u8], n: &Lengths, p: &[u8], out: &mut [u8]) -> Option<[u8; 16]>
    requires { (65537 ≤ length p.now) × (65537 ≤ length out.old) }
{
    let stop = stop_in(line, 6);
    let mut want = [0u8; 16];
    decode_field(line, 8, &mut want);
    let made = gcm::seal(
        &p[..n.key],
        &p[..n.nonce],
        &p[..n.aad],
        &p[..n.text],
        &mut out[..n.room],
    );
    let number = number(&made);
    let tag = made.unwrap_or([0u8; 16]);
    let end = written(stop, n.text);
    let right = (number == stop) & same(&tag, &want) & untouched_behind(out, end);
    if right { Some(tag) } else { None }
}

// Whether opening what was sealed is what the line says.
fn open_limit(
    line: &[u8],
    n: &Lengths,
    p: &[u8],
    sealed: &[u8],
    tag: [u8; 16],
    out: &mut [u8],
) -> bool
    requires { (65537 ≤ length p.now) × (65537 ≤ length sealed.now) × (65537 ≤ length out.old) }
{
    let stop = stop_in(line, 7);
    if n.given > 32 {
        return false;
    }
    let mut tags = [0u8; 32];
    copy(&tag, &mut tags);
    let answer = gcm::open(
        &p[..n.key],
        &p[..n.nonce],
        &p[..n.aad],
        &sealed[..n.text],
        &tags[..n.given],
        &mut out[..n.room],
    );
    (number(&answer) == stop) & begins(out, p, written(stop, n.text))
}

// What is sealed is opened again. Nothing may be written behind the text, nor where a call stops.
fn limit_agrees(line: &[u8]) -> bool {
    let n = lengths_of(line);
    let mut p = [0u8; LONGEST];
    pattern(&mut p);
    let mut out = [0xEEu8; LONGEST];
    let Some(tag) = seal_limit(line, &n, &p, &mut out) else {
        return false;
    };
    let mut back = [0xEEu8; LONGEST];
    open_limit(line, &n, &p, &out, tag, &mut back)
}

// Whether a line is a case, and neither empty nor a comment.
fn is_case(line: &[u8]) -> bool {
    matches!(line.first(), Some(b) if *b != b'#')
}

// Prints how many cases of a file, which is at most 65,536 bytes long, agree. One call's buffers are gone before the next: in `main` they would
// all stand on the stack at once.
#[inline(never)]
fn run<R: Console + Files, F: Fn(&[u8]) -> bool>(rt: &R, path: &[u8], name: &str, agrees: F)
    requires { F.IsAlwaysCallable agrees }
{
    let mut text = [0u8; 65_536];
    let Some(n) = read_file(rt, path, &mut text) else {
        return;
    };
    let mut all: u32 = 0;
    let mut agree: u32 = 0;
    for piece in text[..n].split_inclusive(|b| *b <= LINE_FEED) {
        let line = cut(piece, LINE_FEED).0;
        if is_case(line) {
            all = all.wrapping_add(1);
            if agrees(line) {
                agree = agree.wrapping_add(1);
            }
        }
    }
    let _ = println!(rt; "{agree} of {all}{name} agree");
}

fn main(rt: HostRuntime) {
    run(
        &rt,
        b"gcm128-seal.txt",
        " vectors of NIST for sealing by AES-128-GCM",
        seal_agrees,
    );
    run(
        &rt,
        b"gcm128-open.txt",
        " vectors of NIST for opening by AES-128-GCM",
        open_agrees,
    );
    run(
        &rt,
        b"gcm256-seal.txt",
        " vectors of NIST for sealing by AES-256-GCM",
        seal_agrees,
    );
    run(
        &rt,
        b"gcm256-open.txt",
        " vectors of NIST for opening by AES-256-GCM",
        open_agrees,
    );
    run(
        &rt,
        b"limits.txt",
        " cases at the limits of lengths",
        limit_agrees,
    );
}
