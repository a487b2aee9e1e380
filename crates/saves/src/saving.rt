// The save, by stages: stops 1 to 4 and 18, then those about the ring, then the sealing.
ghost use Rattle.std.specs.Prelude.{◌≡◌, Ok, [], length};
ghost use Rattle.std.proofs.Math.Option.{none};
ghost use Rattle.stops.specs.Stops.{first_of};
ghost use Rattle.stops.specs.View.{check_number};
ghost use Rattle.ring.specs.View.{newest};
ghost use Rattle.gcm.specs.Calls.{KeyLength};
ghost use Rattle.checkpoint.specs.Checkpoint.{Longer};
ghost use Rattle.checkpoint.specs.Sealing.{Sealable};
ghost use Rattle.checkpoint.specs.View.{view_unsealed};
ghost use Rattle.protocol.specs.Types.{Words, Save, this_firmware};
ghost use Rattle.protocol.specs.Calls.{from_tag, from_session, saves};
ghost use Rattle.protocol.specs.Operations.{begin, job_of, parts_wrong, session_wrong, save_restarts, larger, save_stop, save};
ghost use Rattle.jobs.specs.View.{view_session, view_started};
ghost use Rattle.saves.specs.View.{view_from, arguments_of};
ghost use Rattle.saves.specs.Stages.{save_buffers, first_lines, next_lines};

use crate::types::{Draft, From, Given};
use checkpoint::fram::part_wrong;
use checkpoint::layout::EMPTY_LENGTH;
use checkpoint::staging::Unsealed;
use checkpoint::under::seal_under;
use gcm::{key_wrong, nonce_wrong};
use jobs::{Job, Origin, Phase, Session, Target};
use memories::{Memories, check_newest};
use octets::limits::{PACKET_LIMIT, RESTART_LIMIT, TAG_LENGTH};
use octets::{array, blank};
use ring::{Reading, half_named};
use stops::{Stop, StopIf};

// Stop 4 of both parts.
fn parts_wrong(open: &[u8], secret: &[u8], fram: &[u8]) -> bool
    ensures { result ≡ parts_wrong this_firmware «open».now secret.now fram.now }
{
    if part_wrong(open) | part_wrong(secret) {
        return true;
    }
    fram.len() / 2 < EMPTY_LENGTH + open.len() + secret.len()
}

// Seals a save's checkpoint into staging, and makes the job that stores it in a half and at a target.
fn begin_save(key: &[u8], unsealed: &Unsealed<'_>, staging: &mut [u8], target: Target) -> Job
    requires { KeyLength (length key.now) × Sealable (view_unsealed unsealed.now) staging.old }
    ensures { view_started (Ok result) staging.new ≡ begin none key.now (view_unsealed unsealed.now) (job_of key.now (view_unsealed unsealed.now) (Words 0) Save target.half target.page target.slot) staging.old [] [] }
{
    let tag = seal_under(key, unsealed, staging);
    Job {
        phase: Phase::Words(0),
        origin: Origin::Save,
        half: target.half,
        length: EMPTY_LENGTH + unsealed.open_part.len() + unsealed.secret.len(),
        page: target.page,
        slot: target.slot,
        nonce: array(unsealed.nonce),
        tag,
        restarts: unsealed.restarts,
        packet: unsealed.packet,
    }
}

// Stops 1 to 4 and 18.
fn check_buffers(
    memories: &Memories<'_, '_>,
    draft: &Draft<'_>,
    from: From,
    staging: &[u8],
) -> Result<(), Stop>
    ensures { check_number result ≡ first_of (save_buffers memories.now.ring.now memories.now.fram.now (arguments_of memories.now draft.now staging.now) (view_from from)) }
{
    let lengths = key_wrong(draft.key.len()) | nonce_wrong(draft.nonce.len()) | from.wrong();
    let buffers = parts_wrong(draft.open_part, draft.secret, memories.fram)
        | (staging.len() < memories.fram.len() / 2);
    memories
        .check()
        .stop_if(lengths, Stop::KeyNonceTagSize)
        .stop_if(buffers, Stop::BufferSize)
        .stop_if(PACKET_LIMIT < draft.packet, Stop::PacketTooLarge)
}

// Stop 5, of a starting tag.
fn check_first(ring: &[u8]) -> Result<(), Stop>
    ensures { check_number result ≡ first_of (first_lines ring.now) }
{
    let unused = blank(ring);
    Ok(()).stop_if(!unused, Stop::RingInUse)
}

// Stop 8 of the restarts and the packet number.
fn session_wrong(session: Session) -> bool
    ensures { result ≡ session_wrong Longer (view_session session) }
{
    (RESTART_LIMIT < session.restarts) | (PACKET_LIMIT < session.packet)
}

// Stops 6 to 10, of a session, on a ring that was read.
fn check_next(session: Session, reading: &Reading<'_>, nonce: &[u8]) -> Result<(), Stop>
    ensures { check_number result ≡ first_of (next_lines reading.now.ring.bytes.now reading.now.ring.slots (newest reading.now.found) (view_session session) nonce.now) }
{
    let latest = session.latest;
    let older = reading.not_newest(session.page, session.slot, &latest);
    let stale = older | session_wrong(session);
    let used = reading.nonce_used(nonce);
    check_newest(reading.found)
        .stop_if(stale, Stop::StaleSession)
        .stop_if(reading.found.is_pending(), Stop::PagePending)
        .stop_if(used, Stop::NonceUsed)
}

// A packet number above the session's sets the restarts to 0; otherwise they carry over.
fn save_restarts(heard: usize, known: usize, restarts: usize) -> usize
    ensures { result ≡ save_restarts Longer heard known restarts }
{
    if known < heard { 0 } else { restarts }
}

// The larger of two packet numbers.
fn larger(a: usize, b: usize) -> usize
    ensures { result ≡ larger a b }
{
    if a < b { b } else { a }
}

// With a starting tag, where stops 1 to 4 and 18 do not apply: half A, page 0, slot 0.
fn save_first(
    starting_tag: [u8; TAG_LENGTH],
    memories: &Memories<'_, '_>,
    draft: &Draft<'_>,
    staging: &mut [u8],
) -> Result<Job, Stop>
    requires { first_of (save_buffers memories.now.ring.now memories.now.fram.now (arguments_of memories.now draft.now staging.old) (from_tag starting_tag)) ≡ none }
    ensures { view_started result staging.new ≡ save this_firmware memories.now.ring.now memories.now.fram.now (saves (arguments_of memories.now draft.now staging.old) (from_tag starting_tag)) }
{
    check_first(memories.ring)?;
    let unsealed = Unsealed {
        nonce: draft.nonce,
        packet: draft.packet,
        restarts: 0,
        previous: &starting_tag,
        open_part: draft.open_part,
        secret: draft.secret,
    };
    let half = 0;
    let target = Target {
        half,
        page: 0,
        slot: 0,
    };
    Ok(begin_save(draft.key, &unsealed, staging, target))
}

// With a session, where stops 1 to 4 and 18 do not apply: the half that the newest record does not name, and the next target.
fn save_next(
    session: Session,
    memories: &Memories<'_, '_>,
    draft: &Draft<'_>,
    staging: &mut [u8],
) -> Result<Job, Stop>
    requires { first_of (save_buffers memories.now.ring.now memories.now.fram.now (arguments_of memories.now draft.now staging.old) (from_session (view_session session))) ≡ none }
    ensures { view_started result staging.new ≡ save this_firmware memories.now.ring.now memories.now.fram.now (saves (arguments_of memories.now draft.now staging.old) (from_session (view_session session))) }
{
    let reading = memories.read();
    check_next(session, &reading, draft.nonce)?;
    let target = Target {
        half: 1 - half_named(reading.record()),
        page: reading.target_page(),
        slot: reading.target_slot(),
    };
    let tag = session.tag;
    let unsealed = Unsealed {
        nonce: draft.nonce,
        packet: larger(session.packet, draft.packet),
        restarts: save_restarts(draft.packet, session.packet, session.restarts),
        previous: &tag,
        open_part: draft.open_part,
        secret: draft.secret,
    };
    Ok(begin_save(draft.key, &unsealed, staging, target))
}

impl From {
    // Whether a save would stop, by 1 to 10 or 18. Nothing is stored.
    pub fn save_check(
        self,
        memories: &Memories<'_, '_>,
        draft: &Draft<'_>,
        staging: &[u8],
    ) -> Result<(), Stop>
        ensures { check_number result ≡ save_stop this_firmware memories.now.ring.now memories.now.fram.now (saves (arguments_of memories.now draft.now staging.now) (view_from self)) }
    {
        check_buffers(memories, draft, self, staging)?;
        match self.given {
            Given::StartingTag => check_first(memories.ring),
            Given::Session => check_next(self.session, &memories.read(), draft.nonce),
            // not reached: stop 3 came before
            Given::WrongTag => Err(Stop::KeyNonceTagSize),
        }
    }

    // Seals a checkpoint into staging and answers the job that stores it, or stops and stores nothing: with a starting tag by 1 to 5 or 18, with a
    // session by 1 to 4, 6 to 10 or 18.
    pub fn save(
        self,
        memories: &Memories<'_, '_>,
        draft: &Draft<'_>,
        staging: &mut [u8],
    ) -> Result<Job, Stop>
        ensures { view_started result staging.new ≡ save this_firmware memories.now.ring.now memories.now.fram.now (saves (arguments_of memories.now draft.now staging.old) (view_from self)) }
    {
        check_buffers(memories, draft, self, staging)?;
        match self.given {
            Given::StartingTag => save_first(self.tag, memories, draft, staging),
            Given::Session => save_next(self.session, memories, draft, staging),
            // not reached: stop 3 came before
            Given::WrongTag => Err(Stop::KeyNonceTagSize),
        }
    }
}
