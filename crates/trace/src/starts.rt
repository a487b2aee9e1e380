// The starts that the words of a trace name.
ghost use Rattle.std.specs.Prelude.{◌≡◌, cond};
ghost use Rattle.octets.specs.Octets.{blank};
ghost use Rattle.stops.specs.View.{stop_number};
ghost use Rattle.protocol.specs.Types.{this_firmware};
ghost use Rattle.protocol.specs.Operations.{save, power_up};
ghost use Rattle.saves.specs.View.{view_from};
ghost use Rattle.trace.specs.Trace.{nonce_of, saving, zero_tag, powering_up, save_with, start};
ghost use Rattle.trace.specs.View.{view_held, Starts};

use crate::{PAGES, SLOTS};
use keeper::{Draft, From, Job, Memories, Session, from_session, from_tag, power_up};
use octets::limits::{PART_LIMIT, TAG_LENGTH};
use octets::{blank, copy_at, low_value, word_bytes};
use stops::Stop;
use trace_words::{Kind, word_kind};

// A value as a nonce, most significant byte first.
fn nonce_of(value: u32) -> [u8; 12]
    ensures { result ≡ nonce_of value }
{
    let mut nonce = [0u8; 12];
    copy_at(&word_bytes(value), &mut nonce, 8);
    nonce
}

// The keeper's save, with what the bench gives it.
fn start_save(
    key: &[u8],
    from: From,
    value: u32,
    ring: &[u8],
    fram: &[u8],
    staging: &mut [u8],
) -> Result<Job, Stop>
    ensures { Starts result staging.new (save this_firmware ring.now fram.now (saving key.now value staging.old (view_from from))) }
{
    let memories = Memories {
        pages: PAGES,
        slots: SLOTS,
        ring,
        fram,
    };
    let draft = Draft {
        key,
        nonce: &nonce_of(value),
        packet: value as usize,
        open_part: b"",
        secret: &word_bytes(value),
    };
    from.save(&memories, &draft, staging)
}

fn start_first(
    key: &[u8],
    value: u32,
    ring: &[u8],
    fram: &[u8],
    staging: &mut [u8],
) -> Result<Job, Stop>
    ensures { Starts result staging.new (save this_firmware ring.now fram.now (saving key.now value staging.old zero_tag)) }
{
    let from = from_tag(&[0u8; TAG_LENGTH]);
    start_save(key, from, value, ring, fram, staging)
}

// Why a save is refused with no session: the keeper is not called.
fn sessionless(ring: &[u8]) -> Stop
    ensures { stop_number result ≡ cond (blank ring.now) 6 8 }
{
    if blank(ring) {
        Stop::RingBlank
    } else {
        Stop::StaleSession
    }
}

#[tactic(auto, unfolding(crate::specs::Trace::save_with))]
fn start_next(
    key: &[u8],
    session: Option<Session>,
    value: u32,
    ring: &[u8],
    fram: &[u8],
    staging: &mut [u8],
) -> Result<Job, Stop>
    ensures { Starts result staging.new (save_with key.now ring.now fram.now (view_held session) value staging.old) }
{
    match session {
        Some(session) => start_save(key, from_session(session), value, ring, fram, staging),
        None => Err(sessionless(ring)),
    }
}

fn start_power_up(
    key: &[u8],
    value: u32,
    ring: &[u8],
    fram: &[u8],
    staging: &mut [u8],
) -> Result<Job, Stop>
    ensures { Starts result staging.new (power_up this_firmware ring.now fram.now (powering_up key.now value staging.old)) }
{
    let memories = Memories {
        pages: PAGES,
        slots: SLOTS,
        ring,
        fram,
    };
    let mut state = [0u8; PART_LIMIT];
    let powered = power_up(&memories, key, &nonce_of(value), staging, &mut state)?;
    Ok(powered.job)
}

// The start that a word names. In a trace that was checked a word that is no cut, no first save and no save is a power-up.
#[tactic(auto, unfolding(crate::specs::Trace::start))]
pub(crate) fn start(
    key: &[u8],
    w: u32,
    session: Option<Session>,
    ring: &[u8],
    fram: &[u8],
    staging: &mut [u8],
) -> Result<Job, Stop>
    ensures { Starts result staging.new (start key.now ring.now fram.now (view_held session) w staging.old) }
{
    let value = low_value(w);
    match word_kind(w) {
        Some(Kind::FirstSave) => start_first(key, value, ring, fram, staging),
        Some(Kind::Save) => start_next(key, session, value, ring, fram, staging),
        _ => start_power_up(key, value, ring, fram, staging),
    }
}
