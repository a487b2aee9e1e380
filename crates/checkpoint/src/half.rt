// Reading a half of the FRAM.
ghost use Rattle.std.specs.Prelude.{◌≡◌, true, false, MatchResult, List, ℕ, ◌+◌, ◌-◌, ◌*◌, ◌^◌, ◌<◌, ◌≤◌, length};
ghost use Rattle.octets.specs.Limits.{nonce_length, part_limit};
ghost use Rattle.octets.specs.Octets.{part, put};
ghost use Rattle.aes.specs.Cipher.{cipher, aes};
ghost use Rattle.gcm.specs.Gcm.{AE_tag};
ghost use Rattle.checkpoint.specs.Checkpoint.{Older, front_words, open_word, head_length, empty_length};
ghost use Rattle.checkpoint.specs.Head.{HeadOf};
ghost use Rattle.checkpoint.specs.Half.{form_of, stored_packet, open_length, kinds_from, good_head, good_tag, stored, stored_open};

use super::layout::{HEAD_LENGTH, PACKET_LENGTH};
use aes::cipher::Schedule;
use gcm::counter_mode::encrypt;
use gcm::prepared::Prepared;
use gcm::tag::tag_of;
use octets::limits::{PART_LIMIT, RESTART_LIMIT, TAG_LENGTH};
use octets::{kind_of, part, same, value_of, word_at};

// The head of a half, where it passes stop 11: where the open part starts, the packet number, both parts' lengths in bytes and the restarts.
#[derive(Clone, Copy)]
pub struct Head<'a> {
    pub half: &'a [u8],
    pub start: usize,
    pub packet: usize,
    pub open_part: usize,
    pub secret: usize,
    pub restarts: usize,
    pub ghost says: { HeadOf half.now true start packet open_part secret restarts },
}

// The same of a head that does not pass: what its words say.
#[derive(Clone, Copy)]
pub struct BadHead<'a> {
    pub half: &'a [u8],
    pub start: usize,
    pub packet: usize,
    pub open_part: usize,
    pub secret: usize,
    pub restarts: usize,
    pub ghost says: { HeadOf half.now false start packet open_part secret restarts },
}

// The head whose words from the open part's length on stand at offset i; `front` is whether those before it have their kinds.
fn read_words(half: &[u8], i: usize, front: bool, packet: usize) -> Result<Head<'_>, BadHead<'_>>
    requires { (i ≡ 4 * open_word (form_of half.now)) × (front ≡ kinds_from half.now 0 (front_words (form_of half.now) 0)) × (packet ≡ stored_packet (form_of half.now) half.now) × (empty_length Older ≤ length half.now) }
    ensures { MatchResult result (λ h. h.half.now ≡ half.now) (λ b. b.half.now ≡ half.now) }
{
    let first = word_at(half, i);
    let second = word_at(half, i + 4);
    let third = word_at(half, i + 8);
    let start = i + HEAD_LENGTH - PACKET_LENGTH;
    let open_part = 4 * value_of(first);
    let secret = 4 * value_of(second);
    let restarts = value_of(third);
    let kinds = front & (kind_of(first) == 1) & (kind_of(second) == 2) & (kind_of(third) == 3);
    let good = kinds
        & (open_part <= PART_LIMIT)
        & (secret <= PART_LIMIT)
        & (restarts <= RESTART_LIMIT)
        & (start + TAG_LENGTH + open_part + secret <= half.len());
    if !good {
        return Err(BadHead {
            half,
            start,
            packet,
            open_part,
            secret,
            restarts,
        });
    }
    Ok(Head {
        half,
        start,
        packet,
        open_part,
        secret,
        restarts,
    })
}

// The head of either form: a first word of kind 1 means the older one.
pub fn read_head(half: &[u8]) -> Result<Head<'_>, BadHead<'_>>
    requires { empty_length Older ≤ length half.now }
    ensures { MatchResult result (λ h. h.half.now ≡ half.now) (λ b. b.half.now ≡ half.now) }
{
    let first = word_at(half, 0);
    let kind = kind_of(first);
    if kind == 1 {
        read_words(half, 0, true, 0)
    } else {
        read_words(half, PACKET_LENGTH, kind == 0, value_of(first))
    }
}

// The tag of s: associated data up to offset i, encrypted text from there to j.
pub fn tag_at(prepared: &Prepared<'_>, nonce: &[u8], s: &[u8], i: usize, j: usize) -> [u8; 16]
    requires { (length nonce.now ≡ nonce_length) × (i ≤ j) × (j < 2 ^ 60) × (j ≤ length s.now) }
    ensures { result ≡ AE_tag (cipher prepared.now.schedule.rounds prepared.now.schedule.keys.now) nonce.now (part s.now 0 i) (part s.now i (j - i)) }
{
    tag_of(prepared, nonce, &s[..i], &s[i..j])
}

// Stop 12 does not apply: the stored tag is the standard's, of the head and the open part, hashed where they lie, and the sealed secret
// part.
pub fn good_tag(prepared: &Prepared<'_>, nonce: &[u8], head: &Head<'_>) -> bool
    requires { length nonce.now ≡ nonce_length }
    ensures { (key : List ℕ) → cipher prepared.now.schedule.rounds prepared.now.schedule.keys.now ≡ aes key → result ≡ good_tag (form_of head.now.half.now) key nonce.now head.now.half.now }
{
    let i = head.start + head.open_part;
    let j = i + head.secret;
    let right = tag_at(prepared, nonce, head.half, i, j);
    same(part(head.half, j, TAG_LENGTH), &right)
}

// The open part itself, from byte 28 or 32 of the half on, by the form of its head.
pub fn open_part(half: &[u8], start: usize, open: usize) -> &[u8]
    requires { (good_head part_limit (form_of half.now) half.now ≡ true) × (start ≡ head_length (form_of half.now)) × («open» ≡ open_length (form_of half.now) half.now) }
    ensures { (result.now ≡ stored_open (form_of half.now) half.now) × (length result.now ≡ «open») }
{
    part(half, start, open)
}

// Decrypts the secret part to the front of state, where what stands behind it stays.
pub fn open_secret(schedule: &Schedule<'_>, nonce: &[u8], head: &Head<'_>, state: &mut [u8])
    requires { (length nonce.now ≡ nonce_length) × (head.now.secret ≤ length state.old) }
    ensures { (key : List ℕ) → cipher schedule.now.rounds schedule.now.keys.now ≡ aes key → state.new ≡ put state.old 0 (stored (form_of head.now.half.now) key nonce.now head.now.half.now).secret }
{
    let sealed = part(head.half, head.start + head.open_part, head.secret);
    encrypt(schedule, nonce, sealed, state);
}
