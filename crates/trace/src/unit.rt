// The bench's unit: what each word of a trace does to it, and the line that is printed.
ghost use Rattle.std.specs.Prelude.{◌≡◌, Ok, ◌+◌, ◌≤◌, length, take};
ghost use Rattle.octets.specs.Octets.{put};
ghost use Rattle.ring_line.specs.Line.{line_limit, Short};
ghost use Rattle.jobs.specs.declared.types.Progress.TheVariants.{GoingOn};
ghost use Rattle.jobs.specs.View.{view_progress, view_moved};
ghost use Rattle.trace.specs.Trace.{stored_on, session_after, operation, line_after};
ghost use Rattle.trace.specs.View.{view_held, view_cut, view_unit, Leaves, said, Stepped};

use crate::starts::start;
use crate::{HALF_LENGTH, PAGES, SLOTS};
use keeper::{Job, Progress, Session, advance_lent};
use octets::{copy_at, low_value};
use ring_line::{Line, refused_line, ring_line};
use stops::Stop;
use trace_words::is_cut;

// The bench's unit without its memories: the session, if there is one, and how many stores the next operation makes at most if a cut is set.
#[derive(Clone, Copy)]
pub struct Unit {
    pub session: Option<Session>,
    pub cut: Option<usize>,
}

// No job has more stores: an erase, the words of a half, the record and an erase.
const MOST_STORES: usize = 19;

// At most n stores, while the job is going on.
fn store_on(
    job: Job,
    n: usize,
    ring: &mut [u8],
    fram: &mut [u8],
    staging: &[u8],
) -> Result<Progress, Stop>
    ensures { Leaves result ring.new fram.new (stored_on n staging.now (view_moved (Ok GoingOn) job ring.old fram.old)) }
{
    let mut job = job;
    for _ in 0..n {
        match advance_lent(&mut job, PAGES, SLOTS, ring, fram, staging)? {
            Progress::GoingOn => {}
            ended => return Ok(ended),
        }
    }
    Ok(Progress::GoingOn)
}

// The line that is printed after an operation.
#[tactic(auto, using(crate::proofs::Stepping::ring_after), unfolding(crate::specs::Trace::line_after))]
fn line_after(operated: Result<Progress, Stop>, ring: &[u8]) -> Line
    ensures { Short (line_after (view_progress operated) ring.now) result line_limit }
{
    match operated {
        Ok(_) => ring_line(ring, PAGES, SLOTS),
        Err(stop) => refused_line(stop),
    }
}

// Writes a line to the text from offset `at` on, and answers where it ends.
fn put_line(line: Line, text: &mut [u8], at: usize) -> usize
    requires { (line.length ≤ line_limit) × (at + line_limit ≤ length text.old) }
    ensures { (text.new ≡ put text.old at (take line.length line.bytes)) × (result ≡ at + line.length) }
{
    copy_at(line.as_bytes(), text, at);
    at + line.length
}

impl Unit {
    // The operation that a word names.
    fn operate(self, key: &[u8], w: u32, ring: &mut [u8], fram: &mut [u8]) -> Result<Progress, Stop>
        ensures { Leaves result ring.new fram.new (operation key.now (view_unit self ring.old fram.old) w) }
    {
        let mut staging = [0u8; HALF_LENGTH];
        let job = start(key, w, self.session, ring, fram, &mut staging)?;
        store_on(job, self.cut.unwrap_or(MOST_STORES), ring, fram, &staging)
    }

    // The session that an operation hands out, or else the one before; none after a cut.
    #[tactic(auto, unfolding(crate::specs::Trace::session_after, crate::specs::Trace::session_from))]
    fn session_after(self, operated: Result<Progress, Stop>) -> Option<Session>
        ensures { view_held result ≡ session_after (view_cut self.cut) (said operated) (view_held self.session) }
    {
        if self.cut.is_some() {
            return None;
        }
        match operated {
            Ok(Progress::Saved(session) | Progress::Restored(session)) => Some(session),
            Ok(Progress::GoingOn) | Err(_) => self.session,
        }
    }

    // One word more. The line of an operation is written to the text from offset `at` on; answers where the lines then end.
    pub(crate) fn step(
        &mut self,
        key: &[u8],
        w: u32,
        ring: &mut [u8],
        fram: &mut [u8],
        text: &mut [u8],
        at: usize,
    ) -> usize
        requires { at + line_limit ≤ length text.old }
        ensures { Stepped key.now (view_unit self.old ring.old fram.old) w text.old at (view_unit self.new ring.new fram.new) result text.new }
    {
        if is_cut(w) {
            self.cut = Some(low_value(w) as usize);
            return at;
        }
        let operated = self.operate(key, w, ring, fram);
        *self = Unit {
            session: self.session_after(operated),
            cut: None,
        };
        put_line(line_after(operated, ring), text, at)
    }
}
