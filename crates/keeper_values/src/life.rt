// The life of a unit with a key. Saves write its ring once around and power-ups once more; then power is lost twice.
// Values and nonces are numbers that their bytes repeat; a save's packet number is its value, so that it is newer each time.
ghost use Rattle.std.specs.Prelude.{◌<◌};

use crate::print::print;
use crate::unit::{do_first_save, do_power_up, do_save};
use keeper::{Session, no_session};

// A checkpoint's 15 words and its record. A record that opens a page has the page before erased, one store more.
pub const STORES: usize = 16;

fn refuse_blank(rt: &impl Print, key: &[u8], ring: &mut [u8], fram: &mut [u8]) {
    let none = no_session();
    do_power_up(rt, key, none, 1, STORES, ring, fram);
    do_save(rt, key, none, 1, 1, STORES, ring, fram);
}

// On a blank ring only a first save begins, and afterwards no other does.
fn begin(rt: &impl Print, key: &[u8], ring: &mut [u8], fram: &mut [u8]) -> Session {
    refuse_blank(rt, key, ring, fram);
    let first = do_first_save(rt, key, 1, 1, STORES, ring, fram);
    do_first_save(rt, key, 2, 2, STORES, ring, fram);
    first
}

// The second save opens a page.
fn save_twice(
    rt: &impl Print,
    key: &[u8],
    s: Session,
    value: u8,
    ring: &mut [u8],
    fram: &mut [u8],
) -> Session
    requires { value < 255 }
{
    let s = do_save(rt, key, s, value, value, STORES, ring, fram);
    do_save(rt, key, s, value + 1, value + 1, STORES + 1, ring, fram)
}

// The values 2 to 7, up to page 0 slot 0 again.
fn save_around(
    rt: &impl Print,
    key: &[u8],
    first: Session,
    ring: &mut [u8],
    fram: &mut [u8],
) -> Session {
    let mut s = first;
    for value in [2, 4, 6] {
        s = save_twice(rt, key, s, value, ring, fram);
    }
    s
}

// The second power-up opens a page.
fn power_up_twice(
    rt: &impl Print,
    key: &[u8],
    s: Session,
    nonce: u8,
    ring: &mut [u8],
    fram: &mut [u8],
) -> Session
    requires { nonce < 255 }
{
    let s = do_power_up(rt, key, s, nonce, STORES, ring, fram);
    do_power_up(rt, key, s, nonce + 1, STORES + 1, ring, fram)
}

// Eight power-ups, the last at page 1 slot 0 in half A.
fn restart(
    rt: &impl Print,
    key: &[u8],
    last: Session,
    ring: &mut [u8],
    fram: &mut [u8],
) -> Session {
    let mut s = last;
    for nonce in [8, 10, 12, 14] {
        s = power_up_twice(rt, key, s, nonce, ring, fram);
    }
    s
}

fn set_byte(image: &mut [u8], at: usize, b: u8) {
    if let Some(byte) = image.get_mut(at) {
        *byte = b;
    }
}

// With a new nonce, and with the newest one: at power-up 11, 12 and 13 go before 10.
fn refuse_either(
    rt: &impl Print,
    key: &[u8],
    s: Session,
    new: u8,
    newest: u8,
    ring: &mut [u8],
    fram: &mut [u8],
) {
    do_power_up(rt, key, s, new, STORES, ring, fram);
    print(rt, b"with the newest nonce, ");
    do_power_up(rt, key, s, newest, STORES, ring, fram);
}

// The low byte of the restarts' word of half A is set to 9, and back.
fn refuse_nine(rt: &impl Print, key: &[u8], s: Session, ring: &mut [u8], fram: &mut [u8]) {
    print(rt, b"restarts 9 stored, ");
    set_byte(fram, 15, 9);
    refuse_either(rt, key, s, 16, 15, ring, fram);
    set_byte(fram, 15, 8);
}

fn refuse_restarts(rt: &impl Print, key: &[u8], s: Session, ring: &mut [u8], fram: &mut [u8]) {
    print(rt, b"restarts 8 stored, ");
    refuse_either(rt, key, s, 16, 15, ring, fram);
    refuse_nine(rt, key, s, ring, fram);
}

// A nonce that stands in a record of the newest page.
fn refuse_used(rt: &impl Print, key: &[u8], s: Session, ring: &mut [u8], fram: &mut [u8]) {
    print(rt, b"with the newest nonce, ");
    do_save(rt, key, s, 9, 16, STORES, ring, fram);
    print(rt, b"with the newest nonce, ");
    do_power_up(rt, key, s, 16, STORES, ring, fram);
}

fn refuse_old(
    rt: &impl Print,
    key: &[u8],
    s: Session,
    first: Session,
    ring: &mut [u8],
    fram: &mut [u8],
) {
    print(rt, b"with the first session, ");
    do_save(rt, key, first, 9, 17, STORES, ring, fram);
    refuse_used(rt, key, s, ring, fram);
}

// A save that has heard a newer packet sets the restarts to 0.
fn save_after_restarts(
    rt: &impl Print,
    key: &[u8],
    s: Session,
    first: Session,
    ring: &mut [u8],
    fram: &mut [u8],
) -> Session {
    refuse_restarts(rt, key, s, ring, fram);
    let s = do_save(rt, key, s, 8, 16, STORES, ring, fram);
    refuse_old(rt, key, s, first, ring, fram);
    s
}

// Power is lost in the words of a save: the checkpoint before is still the newest.
fn lose_words(
    rt: &impl Print,
    key: &[u8],
    s: Session,
    ring: &mut [u8],
    fram: &mut [u8],
) -> Session {
    do_save(rt, key, s, 9, 17, 5, ring, fram);
    print(rt, b"power lost\n");
    let s = do_power_up(rt, key, s, 18, STORES + 1, ring, fram);
    do_save(rt, key, s, 9, 19, STORES, ring, fram)
}

// A session that names what stands at page 0 slot 0.
fn session_of_first_slot(ring: &[u8], restarts: usize) -> Session {
    Session {
        page: 0,
        slot: 0,
        latest: ring.first_chunk().copied().unwrap_or([0u8; 16]),
        tag: [0u8; 16],
        restarts,
        packet: 0,
    }
}

fn refuse_made(rt: &impl Print, key: &[u8], ring: &mut [u8], fram: &mut [u8]) {
    print(rt, b"with a session of the newest record, ");
    let made = session_of_first_slot(ring, 8);
    do_save(rt, key, made, 11, 21, STORES, ring, fram);
    print(rt, b"the same with 9 restarts, ");
    let wrong = session_of_first_slot(ring, 9);
    do_save(rt, key, wrong, 11, 21, STORES, ring, fram);
}

// While a page is pending no save begins, whatever its session.
fn refuse_pending(rt: &impl Print, key: &[u8], s: Session, ring: &mut [u8], fram: &mut [u8]) {
    print(rt, b"with the session before, ");
    do_save(rt, key, s, 11, 21, STORES, ring, fram);
    refuse_made(rt, key, ring, fram);
    print(rt, b"with the newest nonce, ");
    do_power_up(rt, key, s, 20, STORES, ring, fram);
}

// Power is lost between a record at page 0 slot 0 and the erase after it: the page before stays pending until a power-up erases it first.
fn lose_erase(
    rt: &impl Print,
    key: &[u8],
    s: Session,
    ring: &mut [u8],
    fram: &mut [u8],
) -> Session {
    do_save(rt, key, s, 10, 20, STORES, ring, fram);
    print(rt, b"power lost\n");
    refuse_pending(rt, key, s, ring, fram);
    do_power_up(rt, key, s, 21, STORES + 1, ring, fram)
}

// A save whose job is advanced once more when it is done, and a byte of its open part, in half A, that is changed.
fn end(rt: &impl Print, key: &[u8], s: Session, ring: &mut [u8], fram: &mut [u8]) {
    print(rt, b"with one advance more, ");
    do_save(rt, key, s, 11, 22, STORES + 2, ring, fram);
    set_byte(fram, 32, 0);
    print(rt, b"with a byte of the open part changed, ");
    refuse_either(rt, key, s, 23, 22, ring, fram);
}

fn work(rt: &impl Print, key: &[u8], first: Session, ring: &mut [u8], fram: &mut [u8]) -> Session {
    let s = save_around(rt, key, first, ring, fram);
    let s = restart(rt, key, s, ring, fram);
    save_after_restarts(rt, key, s, first, ring, fram)
}

fn lose_power(rt: &impl Print, key: &[u8], s: Session, ring: &mut [u8], fram: &mut [u8]) {
    let s = lose_words(rt, key, s, ring, fram);
    let s = lose_erase(rt, key, s, ring, fram);
    end(rt, key, s, ring, fram);
}

pub fn live(rt: &impl Print, key: &[u8], ring: &mut [u8], fram: &mut [u8]) {
    let first = begin(rt, key, ring, fram);
    let s = work(rt, key, first, ring, fram);
    lose_power(rt, key, s, ring, fram);
}
