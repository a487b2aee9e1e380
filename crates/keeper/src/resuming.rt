// Power-up (document 01, "What the unit calls"): its stops, the newest checkpoint opened and sealed anew by `resealing`, and
// the job that stores it.
ghost use Rattle.std.specs.Prelude.{◌≡◌, true, false, List, ℕ, ◌≤◌, length};
ghost use Rattle.std.proofs.Math.Option.{none};
ghost use Rattle.octets.specs.Limits.{nonce_length, part_limit, slot_length, fram_limit};
ghost use Rattle.stops.specs.Stops.{first_of};
ghost use Rattle.stops.specs.View.{check_number, stop_number};
ghost use Rattle.memories.specs.Stages.{of_newest};
ghost use Rattle.ring.specs.Ring.{half_named};
ghost use Rattle.memories.specs.Read.{ReadFrom};
ghost use Rattle.ring.specs.View.{newest};
ghost use Rattle.gcm.specs.Calls.{KeyLength};
ghost use Rattle.checkpoint.specs.Checkpoint.{Longer};
ghost use Rattle.checkpoint.specs.Fram.{fram_wrong};
ghost use Rattle.checkpoint.specs.Half.{form_of, good_tag, stored};
ghost use Rattle.protocol.specs.Types.{PowerUp, this_firmware};
ghost use Rattle.protocol.specs.Operations.{begin, job_of, resumed, first_phase, power_up_stop, power_up};
ghost use Rattle.jobs.specs.View.{view_phase};
ghost use Rattle.keeper.specs.View.{view_powered_up, powers_up};
ghost use Rattle.jobs.specs.Stages.{stopped};
ghost use Rattle.keeper.specs.Stages.{power_up_buffers, power_up_half};
ghost use Rattle.resealing.specs.Stages.{opening_lines, Resealable};

use crate::types::PoweredUp;
use checkpoint::fram::half_at;
use checkpoint::half::read_head;
use checkpoint::layout::EMPTY_LENGTH;
use checkpoint::under::good_tag_under;
use gcm::{key_wrong, nonce_wrong};
use jobs::{Job, Origin, Phase, Target};
use memories::{Memories, check_newest};
use octets::limits::{NONCE_LENGTH, PART_LIMIT};
use octets::{array, part};
use resealing::{Restart, check_opening, reseal};
use ring::{Newest, Reading, half_named};
use stops::{Stop, StopIf};

// Stops 12, 13, 10 and 4, or the checkpoint sealed anew, and the job that stores it.
fn restore(
    key: &[u8],
    restart: &Restart<'_>,
    staging: &mut [u8],
    state: &mut [u8],
    phase: Phase,
    target: Target,
) -> Result<PoweredUp, Stop>
    requires { KeyLength (length key.now) × Resealable restart.now.latest.now restart.now.head.half.now restart.now.nonce.now staging.old state.old }
    ensures { let half = restart.now.head.half.now in let old = stored (form_of half) key.now restart.now.latest.now half in let new = resumed Longer key.now restart.now.nonce.now old in view_powered_up result staging.new state.new ≡ begin (first_of (opening_lines half (good_tag (form_of half) key.now restart.now.latest.now half) restart.now.used)) key.now new (job_of key.now new (view_phase phase) PowerUp target.half target.page target.slot) staging.old state.old old.secret }
{
    let head = restart.head;
    let tag = reseal(key, restart, staging, state)?;
    let job = Job {
        phase,
        origin: Origin::PowerUp,
        half: target.half,
        length: EMPTY_LENGTH + head.open_part + head.secret,
        page: target.page,
        slot: target.slot,
        nonce: array(restart.nonce),
        tag,
        restarts: head.restarts + 1,
        packet: head.packet,
    };
    Ok(PoweredUp {
        job,
        length: head.secret,
    })
}

// The first phase of a power-up's job: a pending page is erased first.
fn first_phase(found: Newest) -> Phase
    ensures { view_phase result ≡ first_phase (newest found) }
{
    match found {
        Newest::AtPending { pending, .. } => Phase::EraseFirst(pending),
        Newest::Blank | Newest::Unreadable | Newest::At { .. } => Phase::Words(0),
    }
}

// Stops 1 to 4 of power-up.
fn check_power_up_buffers(
    memories: &Memories<'_, '_>,
    key: &[u8],
    nonce: &[u8],
    staging: &[u8],
    state: &[u8],
) -> Result<(), Stop>
    ensures { check_number result ≡ first_of (power_up_buffers memories.now.ring.now memories.now.fram.now (powers_up memories.now.pages memories.now.slots key.now nonce.now staging.now state.now)) }
{
    let lengths = key_wrong(key.len()) | nonce_wrong(nonce.len());
    let buffers = (staging.len() < memories.fram.len() / 2) | (state.len() < PART_LIMIT);
    memories
        .check()
        .stop_if(lengths, Stop::KeyNonceTagSize)
        .stop_if(buffers, Stop::BufferSize)
}

// Stops 11, 12, 13, 10 and 4 of power-up, on the half that a record names; the nonce is used or not.
fn check_power_up_half(record: &[u8], fram: &[u8], key: &[u8], used: bool) -> Result<(), Stop>
    requires { (fram_wrong fram_limit fram.now ≡ false) × KeyLength (length key.now) × (length «record».now ≡ slot_length) × (half_named «record».now ≤ 1) }
    ensures { check_number result ≡ first_of (power_up_half key.now «record».now fram.now used) }
{
    let Ok(head) = read_head(half_at(fram, half_named(record))) else {
        return Err(Stop::BadHead);
    };
    let good = good_tag_under(key, part(record, 0, NONCE_LENGTH), &head);
    check_opening(&head, good, used)
}

// Whether a power-up would stop, by 1 to 4, 6, 7, 11 to 13, 10 or 4 again. Nothing is stored.
pub fn power_up_check(
    memories: &Memories<'_, '_>,
    key: &[u8],
    nonce: &[u8],
    staging: &[u8],
    state: &[u8],
) -> Result<(), Stop>
    ensures { check_number result ≡ power_up_stop this_firmware memories.now.ring.now memories.now.fram.now (powers_up memories.now.pages memories.now.slots key.now nonce.now staging.now state.now) }
{
    check_power_up_buffers(memories, key, nonce, staging, state)?;
    let reading = memories.read();
    check_newest(reading.found)?;
    let used = reading.nonce_used(nonce);
    check_power_up_half(reading.record(), memories.fram, key, used)
}

// Where stops 1 to 7 do not apply.
fn resume(
    memories: &Memories<'_, '_>,
    reading: &Reading<'_>,
    key: &[u8],
    nonce: &[u8],
    staging: &mut [u8],
    state: &mut [u8],
) -> Result<PoweredUp, Stop>
    requires { (first_of (power_up_buffers memories.now.ring.now memories.now.fram.now (powers_up memories.now.pages memories.now.slots key.now nonce.now staging.old state.old)) ≡ none) × ReadFrom reading.now memories.now.pages memories.now.slots memories.now.ring.now × (first_of (of_newest (newest reading.now.found)) ≡ none) }
    ensures { view_powered_up result staging.new state.new ≡ power_up this_firmware memories.now.ring.now memories.now.fram.now (powers_up memories.now.pages memories.now.slots key.now nonce.now staging.old state.old) }
{
    let record = reading.record();
    let number = half_named(record);
    let Ok(head) = read_head(half_at(memories.fram, number)) else {
        return Err(Stop::BadHead);
    };
    let restart = Restart {
        head,
        latest: part(record, 0, NONCE_LENGTH),
        nonce,
        used: reading.nonce_used(nonce),
    };
    let target = Target {
        half: 1 - number,
        page: reading.target_page(),
        slot: reading.target_slot(),
    };
    let phase = first_phase(reading.found);
    restore(key, &restart, staging, state, phase, target)
}

// Opens the newest checkpoint, puts its secret part to the front of state, seals both parts with one restart more into staging and answers
// the job that stores it, or stops with 1 to 4, 6, 7, 11 to 13, 10 or 4 again. The state may be used once the job has said
// 'restored'.
pub fn power_up(
    memories: &Memories<'_, '_>,
    key: &[u8],
    nonce: &[u8],
    staging: &mut [u8],
    state: &mut [u8],
) -> Result<PoweredUp, Stop>
    ensures { view_powered_up result staging.new state.new ≡ power_up this_firmware memories.now.ring.now memories.now.fram.now (powers_up memories.now.pages memories.now.slots key.now nonce.now staging.old state.old) }
{
    check_power_up_buffers(memories, key, nonce, staging, state)?;
    let reading = memories.read();
    check_newest(reading.found)?;
    resume(memories, &reading, key, nonce, staging, state)
}
