// Jobs and sessions as bytes (hosts/c/keeper.h): read from a buffer, and written to one.
#![tactic(auto)]

ghost use Rattle.std.specs.Prelude.{◌≡◌, ◌+◌, ◌≤◌, false, length};
ghost use Rattle.octets.specs.Octets.{part, put};
ghost use Rattle.octets.specs.Word.{word_at};
ghost use Rattle.jobs.specs.View.{view_phase, view_origin, view_job, view_session};
ghost use Rattle.job_bytes.specs.Bytes.{job_length, session_length, word_of, phase_number, phase_place, origin_number, job_words, job_bytes, session_bytes, phase_of, origin_of, no_job_in, job_in, session_in};

use jobs::{Job, Origin, Phase, Session, no_job};
use octets::{array, copy_at, part, word_at, word_bytes};

pub const JOB_LENGTH: usize = 64;

pub const SESSION_LENGTH: usize = 48;

// ---- reading

// The number of the word at offset i.
fn number_at(bytes: &[u8], i: usize) -> usize
    requires { i + 4 ≤ length bytes.now }
    ensures { result ≡ word_at bytes.now i }
{
    word_at(bytes, i) as usize
}

// The N bytes at offset i.
fn array_at<const N: usize>(bytes: &[u8], i: usize) -> [u8; N]
    requires { i + N ≤ length bytes.now }
    ensures { result ≡ part bytes.now i N }
{
    array(part(bytes, i, N))
}

// The numbers of phases and origins, here and below, are those of the C interface (hosts/c/keeper.h).
fn phase_of(number: u32, place: usize) -> Phase
    ensures { view_phase result ≡ phase_of number place }
{
    match number {
        1 => Phase::EraseFirst(place),
        2 => Phase::Words(place),
        3 => Phase::Record,
        4 => Phase::EraseAfter(place),
        _ => Phase::Done,
    }
}

fn origin_of(number: u32) -> Origin
    ensures { view_origin result ≡ origin_of number }
{
    match number {
        1 => Origin::Save,
        _ => Origin::PowerUp,
    }
}

// Whether a buffer holds no job.
#[tactic(auto, unfolding(crate::specs::Bytes::no_job_in))]
fn no_job_in(bytes: &[u8]) -> bool
    ensures { (result ≡ no_job_in bytes.now) × (result ≡ false → length bytes.now ≡ job_length) }
{
    if bytes.len() != JOB_LENGTH {
        return true;
    }
    let unknown_phase = !matches!(word_at(bytes, 0), 1..=5);
    let unknown_origin = !matches!(word_at(bytes, 8), 1..=2);
    unknown_phase | unknown_origin
}

// The job of a buffer, or the one that no advance goes on with.
#[tactic(auto, unfolding(crate::specs::Bytes::job_in))]
pub fn job_in(bytes: &[u8]) -> Job
    ensures { view_job result ≡ job_in bytes.now }
{
    if no_job_in(bytes) {
        return no_job();
    }
    Job {
        phase: phase_of(word_at(bytes, 0), number_at(bytes, 4)),
        origin: origin_of(word_at(bytes, 8)),
        half: number_at(bytes, 12),
        length: number_at(bytes, 16),
        page: number_at(bytes, 20),
        slot: number_at(bytes, 24),
        nonce: array_at(bytes, 28),
        tag: array_at(bytes, 40),
        restarts: number_at(bytes, 56),
        packet: number_at(bytes, 60),
    }
}

// The session of a buffer.
#[tactic(auto, unfolding(crate::specs::Bytes::session_in))]
pub fn session_in(bytes: &[u8]) -> Session
    requires { length bytes.now ≡ session_length }
    ensures { view_session result ≡ session_in bytes.now }
{
    Session {
        page: number_at(bytes, 0),
        slot: number_at(bytes, 4),
        latest: array_at(bytes, 8),
        tag: array_at(bytes, 24),
        restarts: number_at(bytes, 40),
        packet: number_at(bytes, 44),
    }
}

// ---- writing

// A number as the word at offset i: its low 32 bits, which are all of it in a job or a session of a unit's.
fn put_word(bytes: &mut [u8], i: usize, n: usize)
    requires { i + 4 ≤ length bytes.old }
    ensures { bytes.new ≡ put bytes.old i (word_of n) }
{
    let word = word_bytes((n % 0x1_0000_0000) as u32);
    copy_at(&word, bytes, i);
}

fn phase_number(phase: Phase) -> usize
    ensures { result ≡ phase_number (view_phase phase) }
{
    match phase {
        Phase::EraseFirst(_) => 1,
        Phase::Words(_) => 2,
        Phase::Record => 3,
        Phase::EraseAfter(_) => 4,
        Phase::Done => 5,
    }
}

fn phase_place(phase: Phase) -> usize
    ensures { result ≡ phase_place (view_phase phase) }
{
    match phase {
        Phase::EraseFirst(n) | Phase::Words(n) | Phase::EraseAfter(n) => n,
        Phase::Record | Phase::Done => 0,
    }
}

fn origin_number(origin: Origin) -> usize
    ensures { result ≡ origin_number (view_origin origin) }
{
    match origin {
        Origin::Save => 1,
        Origin::PowerUp => 2,
    }
}

// The words of a job before its nonce.
fn put_job_words(bytes: &mut [u8], job: Job)
    requires { length bytes.old ≡ job_length }
    ensures { bytes.new ≡ put bytes.old 0 (job_words (view_job job)) }
{
    put_word(bytes, 0, phase_number(job.phase));
    put_word(bytes, 4, phase_place(job.phase));
    put_word(bytes, 8, origin_number(job.origin));
    put_word(bytes, 12, job.half);
    put_word(bytes, 16, job.length);
    put_word(bytes, 20, job.page);
    put_word(bytes, 24, job.slot);
}

// Writes a job.
pub fn put_job(bytes: &mut [u8], job: Job)
    requires { length bytes.old ≡ job_length }
    ensures { bytes.new ≡ job_bytes (view_job job) }
{
    put_job_words(bytes, job);
    copy_at(&job.nonce, bytes, 28);
    copy_at(&job.tag, bytes, 40);
    put_word(bytes, 56, job.restarts);
    put_word(bytes, 60, job.packet);
}

// Writes a session.
pub fn put_session(bytes: &mut [u8], session: Session)
    requires { length bytes.old ≡ session_length }
    ensures { bytes.new ≡ session_bytes (view_session session) }
{
    put_word(bytes, 0, session.page);
    put_word(bytes, 4, session.slot);
    copy_at(&session.latest, bytes, 8);
    copy_at(&session.tag, bytes, 24);
    put_word(bytes, 40, session.restarts);
    put_word(bytes, 44, session.packet);
}
