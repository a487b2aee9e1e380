// What the bench's programs write: a result to standard output, and why there is none to standard error. And what they read: numbers among their
// arguments, and files.
#![tactic(auto)]

ghost use Rattle.std.specs.Prelude.{◌+◌, ◌^◌, ◌≤◌, ◌<◌, IfSome};
ghost use Rattle.bench_io.specs.Read.{ReadInto};

use std::env::{Env, FillError};
use std::fs::Files;
use std::io::{Eprint, Input, Print, Read, Write};
use std::{fs, io, str};
use stops::{Stop, stop_number};

// Linux passes no longer argument.
const ARGUMENT_LIMIT: usize = 131_072;

// Linux's numbers of a read that was interrupted, and of bytes that are no text.
const INTERRUPTED: i32 = 4;

const NO_TEXT: i32 = 84;

// What a program of the bench is run with: its arguments, standard input, standard output and standard error, which takes bytes that are
// no text too, such as a file's name.
pub trait Console: Env + Input + Print + Eprint {
    // Writes bytes to standard error.
    fn write_error(&self, bytes: &[u8]);
}

impl Console for HostRuntime {
    fn write_error(&self, bytes: &[u8]) {
        let _ = self.stderr().write_all(bytes);
    }
}

// Writes a line of words, or a part of one, to standard error.
pub fn complain(rt: &impl Console, line: &[u8]) {
    rt.write_error(line);
}

// A number with one digit more.
fn with_digit(n: usize, c: u8, most: usize) -> usize
    requires { (n ≤ most + 1) × (most < 2 ^ 32) }
    ensures { result ≤ most + 1 }
{
    (n * 10 + usize::from(c % 16)).min(most + 1)
}

// The decimal number that stands in some bytes, or one more than the most that was asked for if it is larger.
fn number_in(digits: &[u8], most: usize) -> Option<usize>
    requires { most < 2 ^ 32 }
    ensures { IfSome result (λ n. n ≤ most + 1) }
{
    if digits.is_empty() {
        return None;
    }
    let mut n = 0;
    for &c in digits {
        if !c.is_ascii_digit() {
            return None;
        }
        n = with_digit(n, c, most);
    }
    Some(n)
}

// How many arguments there are, the program's own name among them.
pub fn argument_count(rt: &impl Env) -> usize {
    (0..usize::MAX)
        .find(|i| matches!(rt.arg(*i, &mut []), Err(FillError::NotPresent)))
        .unwrap_or(usize::MAX)
}

// The number that argument i is, if there is one and it is a decimal number; or one more than the most that was asked for if it is larger.
pub fn number_argument(rt: &impl Env, i: usize, most: usize) -> Option<usize>
    requires { most < 2 ^ 32 }
    ensures { IfSome result (λ n. n ≤ most + 1) }
{
    let mut digits = [0u8; ARGUMENT_LIMIT];
    let n = rt.arg(i, &mut digits).ok()?;
    number_in(&digits[..n], most)
}

// Writes `refused` and the number of a stop to standard error.
pub fn refuse(rt: &impl Eprint, stop: Stop) {
    let number = stop_number(stop);
    let _ = eprintln!(rt; "refused {number}");
}

// Says that standard output took not all.
pub fn not_written(rt: &impl Console) {
    complain(rt, b"standard output could not be written whole\n");
}

// Writes bytes to standard output, or complains.
pub fn write_out(rt: &impl Console, bytes: &[u8]) {
    if rt.write_all(bytes).is_err() {
        not_written(rt);
    }
}

// As `refuse`, but to standard output, where a refusal is the answer that was asked for.
pub fn answer_refused(rt: &impl Console, stop: Stop) {
    let number = stop_number(stop);
    if println!(rt; "refused {number}").is_err() {
        not_written(rt);
    }
}

// What std prints of an error, without the number that it writes behind the system's words.
fn without_number(text: &str) -> &str {
    match text.split_once(" (os error ") {
        Some((words, _)) => words,
        None => text,
    }
}

// Ends a line with why a call failed, in the system's words.
fn complain_why(rt: &impl Console, error: io::Error) {
    let mut text = [0u8; 256];
    let mut room = &mut text[..];
    let _ = write!(room, "{error}");
    let n = 256usize.saturating_sub(room.len());
    if let Ok(words) = str::from_utf8(&text[..n]) {
        complain(rt, without_number(words).as_bytes());
    }
    complain(rt, b"\n");
}

// Says why a file was not opened or read.
pub fn fail(rt: &impl Console, path: &[u8], error: io::Error) {
    complain(rt, path);
    complain(rt, b": ");
    complain_why(rt, error);
}

// Says why a file, which is to hold `what`, was not read.
pub fn not_read(rt: &impl Console, what: &[u8], path: &[u8], error: io::Error) {
    complain(rt, what);
    fail(rt, path, error);
}

// A file's name as text: std takes no other.
pub fn file_name(path: &[u8]) -> io::Result<&str> {
    match str::from_utf8(path) {
        Ok(name) => Ok(name),
        Err(_) => Err(io::Error::from_raw_os_error(NO_TEXT)),
    }
}

pub fn open_read<R: Files>(rt: &R, path: &[u8]) -> io::Result<R::File> {
    fs::open(rt, file_name(path)?)
}

// Reads until the buffer is full, the input ends or a read fails, and answers how many bytes are at the buffer's front.
pub fn read_full(from: &mut impl Read, buffer: &mut [u8]) -> usize
    ensures { ReadInto buffer.new result }
{
    let mut done = 0;
    // A read may take less than there is room for, so how often it is called is not known before.
    while done < buffer.len() {
        match from.read(&mut buffer[done..]) {
            Ok(n) if n > 0 => done += n,
            _ => break,
        }
    }
    done
}

// Reads an open file, and answers how many of its bytes are in the buffer: all, or as many as there is room for. That its end was
// reached, or the buffer's, and no error met on the way, one more read tells.
pub fn read_open(
    rt: &impl Console,
    file: &mut impl Read,
    what: &[u8],
    path: &[u8],
    buffer: &mut [u8],
) -> Option<usize>
    ensures { IfSome result (ReadInto buffer.new) }
{
    let length = read_full(file, buffer);
    match file.read(&mut [0u8; 1]) {
        Ok(more) if more > 0 && length < buffer.len() => {
            not_read(rt, what, path, io::Error::from_raw_os_error(INTERRUPTED));
            None
        }
        Ok(_) => Some(length),
        Err(error) => {
            not_read(rt, what, path, error);
            None
        }
    }
}

// Reads a file as far as there is room, or says why it was not opened.
pub fn read_file<R: Console + Files>(rt: &R, path: &[u8], buffer: &mut [u8]) -> Option<usize>
    ensures { IfSome result (ReadInto buffer.new) }
{
    match open_read(rt, path) {
        Ok(mut file) => Some(read_full(&mut file, buffer)),
        Err(error) => {
            fail(rt, path, error);
            None
        }
    }
}
