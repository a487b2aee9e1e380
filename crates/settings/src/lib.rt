// Settings in the open part (document 02, A.12): volume and alert delay read from a list, and one setting of a list changed where it stands.
#![tactic(auto)]

ghost use Rattle.std.specs.Prelude.{◌≡◌, false, ◌*◌, ◌^◌, ◌≤◌, ◌<◌, IfSome, unwrap_or};
ghost use Rattle.octets.specs.Octets.{put};
ghost use Rattle.octets.specs.Search.{some_below};
ghost use Rattle.octets.specs.Word.{top_word};
ghost use Rattle.stops.specs.View.{check_number};
ghost use Rattle.settings.specs.Settings.{count, kind_at, value_at, place, last_kind, list_wrong, kind_wrong, kinds_wrong, value_wrong, values_wrong, list_stop, settings_read, reading, settings_write, written_as};

use octets::limits::{DELAY_LEAST, DELAY_LIMIT, SETTING_LIMIT, VOLUME_LIMIT};
use octets::{copy_at, low_value, top_kind, word_at, word_bytes};
use stops::{Stop, StopIf};

// The kind of the first word, whose value is the list's version, and those of version 1's settings.
pub const LIST_VERSION: u32 = 15;

pub const VOLUME: u32 = 1;

pub const ALERT_DELAY: u32 = 2;

// The last kind of version 2.
const LAST: u32 = 14;

// The settings that every list has: the volume, and the alert delay in seconds.
#[derive(Clone, Copy)]
pub struct Settings {
    pub volume: u32,
    pub delay: u32,
}

// The kind of word i.
pub fn kind_at(list: &[u8], i: usize) -> u32
    requires { i < count list.now }
    ensures { (result ≡ kind_at list.now i) × (result < 16) }
{
    top_kind(word_at(list, 4 * i))
}

// The value of word i.
pub fn value_at(list: &[u8], i: usize) -> u32
    requires { i < count list.now }
    ensures { (result ≡ value_at list.now i) × (result < 2 ^ 28) }
{
    low_value(word_at(list, 4 * i))
}

// The place of the first word of a kind, if there is one.
fn place(list: &[u8], kind: u32) -> Option<usize>
    ensures { (unwrap_or result (count list.now) ≡ place list.now kind) × IfSome result (λ i. i < count list.now) }
{
    (0..list.len() / 4).find(|i| kind_at(list, *i) == kind)
}

// Stop 23.
fn list_wrong(list: &[u8]) -> bool
    ensures { result ≡ list_wrong list.now }
{
    if (list.len() % 4 != 0) | (list.len() / 4 == 0) {
        return true;
    }
    let version = value_at(list, 0);
    (kind_at(list, 0) != LIST_VERSION) | !((version == 1) | (version == 2))
}

// The last kind of a version.
fn last_kind(version: u32) -> u32
    ensures { result ≡ last_kind version }
{
    if version == 1 { ALERT_DELAY } else { LAST }
}

// Whether the kind of word i, which is behind the first, is not the version's or does not rise.
fn kind_wrong(list: &[u8], i: usize) -> bool
    requires { (1 ≤ i) × (i < count list.now) }
    ensures { result ≡ kind_wrong list.now i }
{
    let kind = kind_at(list, i);
    (kind == 0) | (kind > last_kind(value_at(list, 0))) | ((i > 1) & (kind <= kind_at(list, i - 1)))
}

// Whether the kind of some word behind the first is not the version's or does not rise.
fn some_kind_wrong(list: &[u8]) -> bool
    ensures { result ≡ some_below (count list.now) (kind_wrong list.now) }
{
    for i in 1..list.len() / 4 {
        if kind_wrong(list, i) {
            return true;
        }
    }
    false
}

// Stop 24. Where kinds rise from 1 on, the first two are 1 and 2, or one of these is missing.
fn kinds_wrong(list: &[u8]) -> bool
    requires { list_wrong list.now ≡ false }
    ensures { result ≡ kinds_wrong list.now }
{
    if some_kind_wrong(list) | (list.len() / 4 < 3) {
        return true;
    }
    (kind_at(list, 1) != VOLUME) | (kind_at(list, 2) != ALERT_DELAY)
}

// Whether a kind does not take a value.
#[tactic(auto, unfolding(crate::specs::Settings::value_wrong))]
fn value_wrong(kind: u32, value: u32) -> bool
    ensures { result ≡ value_wrong kind value }
{
    match kind {
        VOLUME => value > VOLUME_LIMIT,
        ALERT_DELAY => (value < DELAY_LEAST) | (value > DELAY_LIMIT),
        _ => value > SETTING_LIMIT,
    }
}

// Stop 25, of a list that has no other: volume and delay are its second and its third word.
fn values_wrong(list: &[u8]) -> bool
    requires { (list_wrong list.now ≡ false) × (kinds_wrong list.now ≡ false) }
    ensures { result ≡ values_wrong list.now }
{
    value_wrong(VOLUME, value_at(list, 1)) | value_wrong(ALERT_DELAY, value_at(list, 2))
}

// The stops of a list; 24 and 25 also for a kind and a value that a writer is refused.
fn check(list: &[u8], kind_refused: bool, value_refused: bool) -> Result<(), Stop>
    ensures { check_number result ≡ list_stop list.now kind_refused value_refused }
{
    if list_wrong(list) {
        return Err(Stop::BadList);
    }
    if kinds_wrong(list) | kind_refused {
        return Err(Stop::BadKinds);
    }
    Ok(()).stop_if(values_wrong(list) | value_refused, Stop::BadValue)
}

// Answers the volume and the alert delay of a list, or stops with 23, 24 or 25.
pub fn settings_read(list: &[u8]) -> Result<Settings, Stop>
    ensures { reading result ≡ settings_read list.now }
{
    check(list, false, false)?;
    Ok(Settings {
        volume: value_at(list, 1),
        delay: value_at(list, 2),
    })
}

// Puts a word of a kind and a value over word i.
fn put_word(list: &mut [u8], i: usize, kind: u32, value: u32)
    requires { (i < count list.old) × (kind < 16) × (value < 2 ^ 28) }
    ensures { list.new ≡ put list.old (4 * i) (top_word kind value) }
{
    copy_at(&word_bytes(kind * 0x1000_0000 + value), list, 4 * i);
}

// Changes the setting of a kind where it stands, and no other word; or stops with 23, 24 or 25 and writes nothing.
pub fn settings_write(list: &mut [u8], kind: u32, value: u32) -> Result<(), Stop>
    ensures { written_as result list.new ≡ settings_write list.old kind value }
{
    let at = place(list, kind);
    let kind_refused = (kind == LIST_VERSION) | at.is_none();
    check(list, kind_refused, value_wrong(kind, value))?;
    put_word(list, at.unwrap(), kind, value);
    Ok(())
}
