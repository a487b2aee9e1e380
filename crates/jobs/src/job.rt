// Jobs and sessions: the empty ones, which are none that a call goes on with, and what is made of a job.
ghost use Rattle.std.specs.Prelude.{◌≡◌, ◌<◌};
ghost use Rattle.protocol.specs.Operations.{no_job, no_session, in_phase, job_record, session_of};
ghost use Rattle.jobs.specs.View.{view_phase, view_job, view_session};

use crate::types::{Job, Origin, Phase, Session};
use octets::limits::{NONCE_LENGTH, SLOT_LENGTH, TAG_LENGTH};
use ring::record_of;

// A job that is done, and all else in it zero.
pub fn no_job() -> Job
    ensures { view_job result ≡ no_job }
{
    Job {
        phase: Phase::Done,
        origin: Origin::Save,
        half: 0,
        length: 0,
        page: 0,
        slot: 0,
        nonce: [0u8; NONCE_LENGTH],
        tag: [0u8; TAG_LENGTH],
        restarts: 0,
        packet: 0,
    }
}

// A session that is all zeros.
pub fn no_session() -> Session
    ensures { view_session result ≡ no_session }
{
    Session {
        page: 0,
        slot: 0,
        latest: [0u8; SLOT_LENGTH],
        tag: [0u8; TAG_LENGTH],
        restarts: 0,
        packet: 0,
    }
}

impl Job {
    pub(crate) fn in_phase(self, phase: Phase) -> Job
        ensures { view_job result ≡ in_phase (view_job self) (view_phase phase) }
    {
        Job { phase, ..self }
    }

    // The record that the job writes.
    pub(crate) fn record_bytes(self) -> [u8; SLOT_LENGTH]
        requires { self.half < 2 }
        ensures { result ≡ job_record (view_job self) }
    {
        record_of(self.nonce, self.half)
    }

    // The session that the job ends in.
    pub(crate) fn session(self) -> Session
        requires { self.half < 2 }
        ensures { view_session result ≡ session_of (view_job self) }
    {
        let latest = self.record_bytes();
        let tag = self.tag;
        Session {
            page: self.page,
            slot: self.slot,
            latest,
            tag,
            restarts: self.restarts,
            packet: self.packet,
        }
    }
}
