// Look, its companion, and what both are made of (document 01, "What the unit calls"). They store nothing.
ghost use Rattle.std.specs.Prelude.{◌≡◌, false, List, ℕ, ◌≤◌, length};
ghost use Rattle.protocol.specs.Types.{this_firmware};
ghost use Rattle.octets.specs.Limits.{nonce_length, slot_length, fram_limit};
ghost use Rattle.stops.specs.Stops.{first_of};
ghost use Rattle.stops.specs.View.{check_number};
ghost use Rattle.ring.specs.Ring.{half_named};
ghost use Rattle.gcm.specs.Calls.{KeyLength};
ghost use Rattle.checkpoint.specs.Fram.{fram_wrong};
ghost use Rattle.protocol.specs.Operations.{look, open_stretch, stretch_of};
ghost use Rattle.look.specs.View.{view_looked, view_seen, view_stretch, looks};
ghost use Rattle.look.specs.Stages.{of_half, look_half};
ghost use Rattle.look.specs.Seen.{Finds, Sees};

use crate::types::Seen;
use checkpoint::fram::half_at;
use checkpoint::half::read_head;
use checkpoint::layout::{EMPTY_LENGTH, PACKET_LENGTH};
use checkpoint::under::good_tag_under;
use gcm::key_wrong;
use memories::{Memories, check_newest};
use octets::limits::NONCE_LENGTH;
use octets::part;
use ring::{Reading, half_named};
use stops::{Stop, StopIf};

// Stops 11 and 12 of a half.
pub fn check_half(key: &[u8], nonce: &[u8], half: &[u8]) -> Result<(), Stop>
    requires { KeyLength (length key.now) × (length nonce.now ≡ nonce_length) }
    ensures { check_number result ≡ first_of (of_half key.now nonce.now half.now) }
{
    // no checkpoint fits, and read_head asks for room for a head
    if half.len() < EMPTY_LENGTH - PACKET_LENGTH {
        return Err(Stop::BadHead);
    }
    let Ok(head) = read_head(half) else {
        return Err(Stop::BadHead);
    };
    let good = good_tag_under(key, nonce, &head);
    Ok(()).stop_if(!good, Stop::TagDiffers)
}

// The half that a record names: stops 11 and 12, or its restarts and open part.
fn see_half(record: &[u8], fram: &[u8], key: &[u8]) -> Result<Seen, Stop>
    requires { (fram_wrong fram_limit fram.now ≡ false) × KeyLength (length key.now) × (length «record».now ≡ slot_length) × (half_named «record».now ≤ 1) }
    ensures { Sees result (first_of (look_half key.now «record».now fram.now)) fram.now (half_named «record».now) }
{
    let number = half_named(record);
    let half = half_at(fram, number);
    check_half(key, part(record, 0, NONCE_LENGTH), half)?;
    // not reached: stop 11 came before
    let Ok(head) = read_head(half) else {
        return Err(Stop::BadHead);
    };
    Ok(Seen {
        restarts: head.restarts,
        offset: number * (fram.len() / 2) + head.start,
        length: head.open_part,
    })
}

// What the ring reads as, where stops 1, 2, 3, 6 and 7 do not apply.
pub fn find<'r>(memories: &Memories<'r, '_>, key: &[u8]) -> Result<Reading<'r>, Stop>
    ensures { Finds result memories.now.pages memories.now.slots memories.now.ring.now memories.now.fram.now key.now }
{
    memories
        .check()
        .stop_if(key_wrong(key.len()), Stop::KeyNonceTagSize)?;
    let reading = memories.read();
    check_newest(reading.found)?;
    Ok(reading)
}

// What look answers, and where the open part lies in the FRAM image; or look's stop.
pub fn see(memories: &Memories<'_, '_>, key: &[u8]) -> Result<Seen, Stop>
    ensures { (view_seen result ≡ look this_firmware memories.now.ring.now memories.now.fram.now (looks memories.now.pages memories.now.slots key.now)) × (view_stretch result ≡ open_stretch this_firmware memories.now.ring.now memories.now.fram.now (looks memories.now.pages memories.now.slots key.now)) }
{
    let reading = find(memories, key)?;
    see_half(reading.record(), memories.fram, key)
}

// Answers the restarts of the newest checkpoint, or stops with 1, 2, 3, 6, 7, 11 or 12.
pub fn look(memories: &Memories<'_, '_>, key: &[u8]) -> Result<usize, Stop>
    ensures { view_looked result ≡ look this_firmware memories.now.ring.now memories.now.fram.now (looks memories.now.pages memories.now.slots key.now) }
{
    Ok(see(memories, key)?.restarts)
}

// The open part of the newest checkpoint, as that stretch of the FRAM image; an empty stretch where look stops.
pub fn open_part<'f>(memories: &Memories<'_, 'f>, key: &[u8]) -> &'f [u8]
    ensures { result.now ≡ stretch_of memories.now.fram.now (open_stretch this_firmware memories.now.ring.now memories.now.fram.now (looks memories.now.pages memories.now.slots key.now)) }
{
    match see(memories, key) {
        Ok(seen) => part(memories.fram, seen.offset, seen.length),
        Err(_) => &memories.fram[..0],
    }
}
