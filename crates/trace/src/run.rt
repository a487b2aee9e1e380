// Running a trace.
ghost use Rattle.std.specs.Prelude.{◌≡◌, ◌*◌, ◌≤◌, length, IfOk};
ghost use Rattle.octets.specs.Limits.{trace_limit};
ghost use Rattle.stops.specs.View.{check_number};
ghost use Rattle.trace.specs.Trace.{ring_length, fram_length, text_length, trace_stop, run_trace};
ghost use Rattle.trace_words.specs.Words.{words_of};
ghost use Rattle.trace.specs.View.{view_traced, Ran};

use crate::unit::Unit;
use crate::{FRAM_LENGTH, RING_LENGTH, TEXT_LENGTH};
use gcm::key_wrong;
use octets::{fill, word_at};
use stops::{Stop, StopIf};
use trace_words::trace_wrong;

// Stops 1 to 4 and 20. Nothing is stored.
fn trace_check(key: &[u8], trace: &[u8], ring: &[u8], fram: &[u8], text: &[u8]) -> Result<(), Stop>
    ensures { check_number result ≡ trace_stop key.now trace.now ring.now fram.now text.now }
{
    Ok(())
        .stop_if(ring.len() != RING_LENGTH, Stop::RingSize)
        .stop_if(fram.len() != FRAM_LENGTH, Stop::FramSize)
        .stop_if(key_wrong(key.len()), Stop::KeyNonceTagSize)
        .stop_if(text.len() < TEXT_LENGTH, Stop::BufferSize)
        .stop_if(trace_wrong(trace), Stop::BadTrace)
}

// Runs the words of a trace on a unit with this key and blank memories, and answers the length of the lines.
fn run_words(key: &[u8], trace: &[u8], ring: &mut [u8], fram: &mut [u8], text: &mut [u8]) -> usize
    requires { (length trace.now ≤ 4 * trace_limit) × (length ring.old ≡ ring_length) × (length fram.old ≡ fram_length) × (text_length ≤ length text.old) }
    ensures { Ran key.now (words_of trace.now) text.old result ring.new fram.new text.new }
{
    fill(ring, 0xFF);
    fill(fram, 0xFF);
    let mut unit = Unit {
        session: None,
        cut: None,
    };
    let mut at = 0;
    for word in trace.chunks_exact(4) {
        at = unit.step(key, word_at(word, 0), ring, fram, text, at);
    }
    at
}

// Runs a trace under a key, if the key and all of the trace are in order, writes the lines that are printed to the front of the text and
// answers their length. On a stop every buffer stays as it was.
pub fn run_trace(
    key: &[u8],
    trace: &[u8],
    ring: &mut [u8],
    fram: &mut [u8],
    text: &mut [u8],
) -> Result<usize, Stop>
    ensures { (view_traced result ring.new fram.new text.new ≡ run_trace key.now trace.now ring.old fram.old text.old) × IfOk result (λ n. n ≤ length text.old) }
{
    trace_check(key, trace, ring, fram, text)?;
    Ok(run_words(key, trace, ring, fram, text))
}
