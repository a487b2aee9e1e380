// Reads a recorded bench trace from standard input, runs it, and writes a line after each operation (document 02, A.4). The key is
// zero: 32 bytes, or as many as the one argument says, 16 or 32 (A.8). With other arguments nothing is read or run, and standard error says why.
#![tactic(auto)]

ghost use Rattle.std.specs.Prelude.{◌≡◌, ◌≤◌, IfSome, length, replicate};
ghost use Rattle.octets.specs.Limits.{long_key};
ghost use Rattle.octets.specs.Octets.{put};
ghost use Rattle.trace.specs.Trace.{ring_length, fram_length, text_length, output};
ghost use Rattle.bench_trace.specs.Argument.{length_named};

use bench_io::{Console, argument_count, complain, read_full};
use octets::limits::{LONG_KEY, SHORT_KEY};
use octets::{copy, same};
use ring_line::refused_line;
use std::env::Env;
use trace::{FRAM_LENGTH, RING_LENGTH, TEXT_LENGTH, run_trace};

// The length of the key that an argument names, if it names one.
#[tactic(auto, unfolding(crate::specs::Argument::length_named))]
fn length_named(argument: &[u8]) -> Option<usize>
    ensures { (result ≡ length_named argument.now) × IfSome result (λ n. n ≤ long_key) }
{
    if same(argument, b"16") {
        Some(SHORT_KEY)
    } else if same(argument, b"32") {
        Some(LONG_KEY)
    } else {
        None
    }
}

// The length of the key, if the arguments are in order.
fn key_length(rt: &impl Env) -> Option<usize>
    ensures { IfSome result (λ n. n ≤ long_key) }
{
    match argument_count(rt) {
        0 | 1 => Some(LONG_KEY),
        2 => {
            let mut argument = [0u8; 8];
            let n = rt.arg(1, &mut argument).ok()?;
            length_named(&argument[..n])
        }
        _ => None,
    }
}

// Runs a trace under the key of so many zero bytes in these buffers, writes what is to be printed to the front of the text, and answers its length.
fn run(zeros: usize, trace: &[u8], ring: &mut [u8], fram: &mut [u8], text: &mut [u8]) -> usize
    requires { (zeros ≤ long_key) × (length ring.old ≡ ring_length) × (length fram.old ≡ fram_length) × (text_length ≤ length text.old) }
    ensures { (text.new ≡ put text.old 0 (output (replicate zeros 0) trace.now)) × (result ≡ length (output (replicate zeros 0) trace.now)) × (result ≤ length text.old) }
{
    let key = [0u8; LONG_KEY];
    match run_trace(&key[..zeros], trace, ring, fram, text) {
        Ok(written) => written,
        Err(stop) => {
            let line = refused_line(stop);
            copy(line.as_bytes(), text);
            line.length
        }
    }
}

// Runs a trace under the key of so many zero bytes in these buffers, and prints what is to be printed.
fn print(
    rt: &impl Print,
    zeros: usize,
    trace: &[u8],
    ring: &mut [u8],
    fram: &mut [u8],
    text: &mut [u8],
)
    requires { (zeros ≤ long_key) × (length ring.old ≡ ring_length) × (length fram.old ≡ fram_length) × (text_length ≤ length text.old) }
{
    let n = run(zeros, trace, ring, fram, text);
    let _ = rt.write_all(&text[..n]);
}

fn main(rt: HostRuntime) {
    let Some(zeros) = key_length(&rt) else {
        complain(
            &rt,
            b"usage: bench_trace [LENGTH], the key's length in bytes, 16 or 32; 32 if none is given\n",
        );
        return;
    };
    // One byte more than the longest trace has shows one that is too long.
    let mut input = [0u8; 16_385];
    let n = read_full(&mut rt.reader(), &mut input);
    let mut ring = [0u8; RING_LENGTH];
    let mut fram = [0u8; FRAM_LENGTH];
    let mut text = [0u8; TEXT_LENGTH];
    print(&rt, zeros, &input[..n], &mut ring, &mut fram, &mut text);
}
