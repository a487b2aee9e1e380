// An advance (document 01, "What the unit calls"): the one store that a job's phase names.
ghost use Rattle.std.specs.Prelude.{◌≡◌, Ok, false, cond, List, ℕ, ◌+◌, ◌*◌, ◌%◌, ◌≤◌, ◌<◌, length, eqb};
ghost use Rattle.std.proofs.Math.Option.{none};
ghost use Rattle.octets.specs.Limits.{slot_length};
ghost use Rattle.stops.specs.View.{check_number};
ghost use Rattle.ring.specs.Ring.{ring_wrong, page_before};
ghost use Rattle.checkpoint.specs.Checkpoint.{Longer};
ghost use Rattle.protocol.specs.Types.{Words, Record, EraseAfter, this_firmware};
ghost use Rattle.protocol.specs.Calls.{sizes};
ghost use Rattle.protocol.specs.Operations.{phase_wrong, job_wrong, advance_stop, going_on, finished, ended, erase_follows, store, advance};
ghost use Rattle.jobs.specs.View.{view_phase, view_origin, view_job, view_session, view_progress, session_out, view_moved, view_advanced, advances};

use crate::types::{Advanced, Job, Origin, Phase, Progress, Session};
use crate::word::copy_word;
use checkpoint::layout::EMPTY_LENGTH;
use memories::Memories;
use ring::{erase_page, page_before, page_is_blank, slot_is_blank, write_record};
use stops::{Stop, StopIf};

// The end of a job from a start: 'saved' or 'restored', with the new session.
fn finished(origin: Origin, session: Session) -> Progress
    ensures { (view_progress (Ok result) ≡ finished (view_origin origin)) × (session_out (Ok result) ≡ view_session session) }
{
    match origin {
        Origin::Save => Progress::Saved(session),
        Origin::PowerUp => Progress::Restored(session),
    }
}

impl Job {
    // Stop 14 of the phase: its page or word is out of range, the record's target is not blank, or the job is done.
    fn phase_wrong(self, pages: usize, slots: usize, ring: &[u8]) -> bool
        requires { (self.length % 4 ≡ 0) × (slot_length * (self.page * slots + self.slot) + slot_length ≤ length ring.now) }
        ensures { result ≡ phase_wrong (view_phase self.phase) (view_job self) (sizes pages slots) ring.now }
    {
        match self.phase {
            Phase::EraseFirst(p) => pages <= p,
            Phase::Words(w) => self.length / 4 <= w,
            Phase::Record => !slot_is_blank(ring, slots, self.page, self.slot),
            Phase::EraseAfter(p) => pages <= p,
            Phase::Done => true,
        }
    }

    // Stop 14.
    fn wrong(self, pages: usize, slots: usize, ring: &[u8], fram: &[u8]) -> bool
        requires { ring_wrong pages slots ring.now ≡ false }
        ensures { result ≡ job_wrong Longer (view_job self) (sizes pages slots) ring.now fram.now }
    {
        let bad_length = (self.length % 4 != 0)
            | (self.length < EMPTY_LENGTH)
            | (fram.len() / 2 < self.length);
        if bad_length | (pages <= self.page) | (slots <= self.slot) | (1 < self.half) {
            return true;
        }
        self.phase_wrong(pages, slots, ring)
    }

    // Stops 1, 2, 4 and 14.
    fn check(
        self,
        pages: usize,
        slots: usize,
        ring: &[u8],
        fram: &[u8],
        staging: &[u8],
    ) -> Result<(), Stop>
        ensures { check_number result ≡ advance_stop this_firmware ring.now fram.now (advances pages slots self staging.now) }
    {
        let memories = Memories {
            pages,
            slots,
            ring,
            fram,
        };
        memories.check()?;
        Ok(())
            .stop_if(staging.len() < fram.len() / 2, Stop::BufferSize)
            .stop_if(self.wrong(pages, slots, ring, fram), Stop::BadJob)
    }

    fn going_on(self, phase: Phase) -> Advanced
        ensures { (ring fram : List ℕ) → view_moved (Ok result.progress) result.job ring fram ≡ going_on (view_job self) (view_phase phase) ring fram }
    {
        Advanced {
            progress: Progress::GoingOn,
            job: self.in_phase(phase),
        }
    }

    // Done: 'saved' or 'restored', with the new session.
    fn ended(self) -> Advanced
        requires { self.half < 2 }
        ensures { (ring fram : List ℕ) → view_moved (Ok result.progress) result.job ring fram ≡ ended (view_job self) ring fram }
    {
        Advanced {
            progress: finished(self.origin, self.session()),
            job: self.in_phase(Phase::Done),
        }
    }

    // After word w comes the next one or, behind the last, the record.
    fn after_word(self, w: usize) -> Advanced
        requires { (self.length % 4 ≡ 0) × (4 * w < self.length) }
        ensures { (ring fram : List ℕ) → view_moved (Ok result.progress) result.job ring fram ≡ going_on (view_job self) (cond (eqb (4 * (w + 1)) self.length) Record (Words (w + 1))) ring fram }
    {
        if 4 * (w + 1) == self.length {
            self.going_on(Phase::Record)
        } else {
            self.going_on(Phase::Words(w + 1))
        }
    }

    // After the record, which `ring` holds, the page before is to be erased if the record opened a page and it is not blank.
    fn after_record(self, pages: usize, slots: usize, ring: &[u8]) -> Advanced
        requires { (self.half < 2) × (self.page < pages) × (ring_wrong pages slots ring.now ≡ false) }
        ensures { (fram : List ℕ) → view_moved (Ok result.progress) result.job ring.now fram ≡ cond (erase_follows ring.now (sizes pages slots) (view_job self)) (going_on (view_job self) (EraseAfter (page_before pages self.page)) ring.now fram) (ended (view_job self) ring.now fram) }
    {
        if self.slot != 0 {
            return self.ended();
        }
        let older = page_before(pages, self.page);
        if page_is_blank(ring, slots, older) {
            return self.ended();
        }
        self.going_on(Phase::EraseAfter(older))
    }

    // The one store that the phase names.
    fn store(
        self,
        pages: usize,
        slots: usize,
        ring: &mut [u8],
        fram: &mut [u8],
        staging: &[u8],
    ) -> Advanced
        requires { advance_stop this_firmware ring.old fram.old (advances pages slots self staging.now) ≡ none }
        ensures { view_moved (Ok result.progress) result.job ring.new fram.new ≡ store (view_phase self.phase) ring.old fram.old (advances pages slots self staging.now) }
    {
        match self.phase {
            Phase::EraseFirst(p) => {
                erase_page(ring, slots, p);
                self.going_on(Phase::Words(0))
            }
            Phase::Words(w) => {
                copy_word(fram, self.half, staging, w);
                self.after_word(w)
            }
            Phase::Record => {
                let bytes = self.record_bytes();
                write_record(ring, slots, self.page, self.slot, bytes);
                self.after_record(pages, slots, ring)
            }
            Phase::EraseAfter(p) => {
                erase_page(ring, slots, p);
                self.ended()
            }
            Phase::Done => self.ended(),
        }
    }

    // Makes the one store that the phase names and answers the job moved on, or stops with 1, 2, 4 or 14 and stores nothing.
    pub fn advance(
        self,
        pages: usize,
        slots: usize,
        ring: &mut [u8],
        fram: &mut [u8],
        staging: &[u8],
    ) -> Result<Advanced, Stop>
        ensures { view_advanced self result ring.new fram.new ≡ advance this_firmware ring.old fram.old (advances pages slots self staging.now) }
    {
        self.check(pages, slots, ring, fram, staging)?;
        Ok(self.store(pages, slots, ring, fram, staging))
    }
}
