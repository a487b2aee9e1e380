// Look and advance.
ghost use Rattle.std.specs.Prelude.{◌≡◌, Ok, length};
ghost use Rattle.protocol.specs.Calls.{sizes};
ghost use Rattle.jobs.specs.View.{view_progress, session_out};
ghost use Rattle.job_bytes.specs.Bytes.{session_length};
ghost use Rattle.look.specs.View.{looks};
ghost use Rattle.keeper_c.specs.Calls.{look_call, looking_left, progress_number, session_after, advance_call, advancing_left};

use crate::cipher::stopped;
use job_bytes::{SESSION_LENGTH, job_in, put_job, put_session};
use jobs::Progress;
use keeper::see;
use memories::Memories;
use stops::{Stop, stop_number};

// The restarts of the newest checkpoint, and where its open part lies in the FRAM image.
#[unsafe(no_mangle)]
pub extern "C" fn keeper_look(
    pages: usize,
    slots: usize,
    ring: &[u8],
    fram: &[u8],
    key: &[u8],
    restarts: &mut u32,
    open_start: &mut usize,
    open_len: &mut usize,
) -> u32
    ensures { looking_left result restarts.new open_start.new open_len.new ≡ look_call ring.now fram.now (looks pages slots key.now) restarts.old open_start.old open_len.old }
{
    let memories = Memories {
        pages,
        slots,
        ring,
        fram,
    };
    match see(&memories, key) {
        Err(stop) => stop_number(stop),
        Ok(seen) => {
            *restarts = seen.restarts as u32;
            *open_start = seen.offset;
            *open_len = seen.length;
            0
        }
    }
}

// Writes the session of a job that has ended; the number of the progress.
fn put_ended(progress: Progress, session: &mut [u8]) -> u32
    requires { length session.old ≡ session_length }
    ensures { (result ≡ progress_number (view_progress (Ok progress))) × (session.new ≡ session_after (view_progress (Ok progress)) (session_out (Ok progress)) session.old) }
{
    match progress {
        Progress::GoingOn => 256,
        Progress::Saved(made) => {
            put_session(session, made);
            257
        }
        Progress::Restored(made) => {
            put_session(session, made);
            258
        }
    }
}

// The one store that a job's phase names; the job in its buffer moves on. At the job's end the new session is written.
#[unsafe(no_mangle)]
pub extern "C" fn keeper_advance(
    pages: usize,
    slots: usize,
    ring: &mut [u8],
    fram: &mut [u8],
    staging: &[u8],
    job: &mut [u8],
    session: &mut [u8],
) -> u32
    ensures { advancing_left result ring.new fram.new job.new session.new ≡ advance_call ring.old fram.old (sizes pages slots) staging.now job.old session.old }
{
    if session.len() != SESSION_LENGTH {
        let memories = Memories {
            pages,
            slots,
            ring,
            fram,
        };
        return stopped(memories.check(), Stop::BufferSize);
    }
    match job_in(job).advance(pages, slots, ring, fram, staging) {
        Err(stop) => stop_number(stop),
        Ok(advanced) => {
            put_job(job, advanced.job);
            put_ended(advanced.progress, session)
        }
    }
}
