// A unit with a key and a ring of 3 pages of 2 slots, an open part of 8 bytes and a secret part of 4: its calls, each with a line that says
// what it answered, what look and its companion then give, and the ring's state.
use crate::print::{print, print_bytes, print_progress, print_stop};
use crate::values::{PAGES, SLOTS, starting_tag};
use keeper::{
    Draft, From, Job, Memories, PoweredUp, Progress, Session, advance_lent, from_session, from_tag,
    look, no_session, open_part, power_up,
};
use octets::limits::PART_LIMIT;
use ring_line::ring_line;
use stops::Stop;

// The unit's memories, as the keeper's calls read them.
fn memories<'r, 'f>(ring: &'r [u8], fram: &'f [u8]) -> Memories<'r, 'f> {
    Memories {
        pages: PAGES,
        slots: SLOTS,
        ring,
        fram,
    }
}

pub fn print_looked(rt: &impl Print, key: &[u8], ring: &[u8], fram: &[u8]) {
    let memories = memories(ring, fram);
    match look(&memories, key) {
        Ok(restarts) => {
            let _ = print!(rt; "; restarts {restarts}; open part ");
            print_bytes(rt, open_part(&memories, key));
        }
        Err(stop) => print_stop(rt, "; look stopped ", stop),
    }
}

fn print_ring(rt: &impl Print, ring: &[u8]) {
    print(rt, b"; ");
    let line = ring_line(ring, PAGES, SLOTS);
    print(rt, line.as_bytes());
}

pub fn print_memories(rt: &impl Print, key: &[u8], ring: &[u8], fram: &[u8]) {
    print_looked(rt, key, ring, fram);
    print_ring(rt, ring);
}

// A number of advances, at least one; answers what the last said.
fn run(
    job: Job,
    advances: usize,
    ring: &mut [u8],
    fram: &mut [u8],
    staging: &[u8],
) -> Result<Progress, Stop> {
    let mut job = job;
    for _ in 1..advances {
        let _ = advance_lent(&mut job, PAGES, SLOTS, ring, fram, staging);
    }
    advance_lent(&mut job, PAGES, SLOTS, ring, fram, staging)
}

// Runs the job of a start for a number of advances. Answers the session that it handed out, or after a stop the one given.
fn carry_out(
    rt: &impl Print,
    started: Result<Job, Stop>,
    session: Session,
    advances: usize,
    ring: &mut [u8],
    fram: &mut [u8],
    staging: &[u8],
) -> Session {
    match started {
        Err(stop) => {
            print_stop(rt, ": stopped ", stop);
            session
        }
        Ok(job) => {
            let said = run(job, advances, ring, fram, staging);
            print_progress(rt, said, advances);
            match said {
                Ok(Progress::Saved(next) | Progress::Restored(next)) => next,
                Ok(Progress::GoingOn) | Err(_) => no_session(),
            }
        }
    }
}

pub fn start_save(
    key: &[u8],
    from: From,
    packet: usize,
    value: u8,
    nonce: u8,
    ring: &[u8],
    fram: &[u8],
    staging: &mut [u8],
) -> Result<Job, Stop> {
    let draft = Draft {
        key,
        nonce: &[nonce; 12],
        packet,
        open_part: &[value; 8],
        secret: &[value; 4],
    };
    from.save(&memories(ring, fram), &draft, staging)
}

// A save, with what it follows and the session before.
fn do_save_from(
    rt: &impl Print,
    key: &[u8],
    from: From,
    session: Session,
    packet: usize,
    value: u8,
    nonce: u8,
    advances: usize,
    ring: &mut [u8],
    fram: &mut [u8],
) -> Session {
    let mut staging = [0u8; 64];
    let started = start_save(key, from, packet, value, nonce, ring, fram, &mut staging);
    let next = carry_out(rt, started, session, advances, ring, fram, &staging);
    print_memories(rt, key, ring, fram);
    next
}

// A save with a starting tag, and below one with a session, with a packet number of the value's.
pub fn do_first_save(
    rt: &impl Print,
    key: &[u8],
    value: u8,
    nonce: u8,
    advances: usize,
    ring: &mut [u8],
    fram: &mut [u8],
) -> Session {
    let _ = print!(rt; "first save of {value}");
    do_save_from(
        rt,
        key,
        from_tag(&starting_tag()),
        no_session(),
        value as usize,
        value,
        nonce,
        advances,
        ring,
        fram,
    )
}

pub fn do_save(
    rt: &impl Print,
    key: &[u8],
    session: Session,
    value: u8,
    nonce: u8,
    advances: usize,
    ring: &mut [u8],
    fram: &mut [u8],
) -> Session {
    do_save_hearing(
        rt,
        key,
        session,
        value as usize,
        value,
        nonce,
        advances,
        ring,
        fram,
    )
}

// A save that has last heard a packet.
pub fn do_save_hearing(
    rt: &impl Print,
    key: &[u8],
    session: Session,
    packet: usize,
    value: u8,
    nonce: u8,
    advances: usize,
    ring: &mut [u8],
    fram: &mut [u8],
) -> Session {
    let _ = print!(rt; "save of {value}, packet {packet}");
    do_save_from(
        rt,
        key,
        from_session(session),
        session,
        packet,
        value,
        nonce,
        advances,
        ring,
        fram,
    )
}

pub fn start_power_up(
    key: &[u8],
    nonce: u8,
    ring: &[u8],
    fram: &[u8],
    staging: &mut [u8],
    state: &mut [u8],
) -> Result<PoweredUp, Stop> {
    power_up(&memories(ring, fram), key, &[nonce; 12], staging, state)
}

// A power-up. Where it has a secret part, that is printed, from the front of the state.
pub fn do_power_up(
    rt: &impl Print,
    key: &[u8],
    session: Session,
    nonce: u8,
    advances: usize,
    ring: &mut [u8],
    fram: &mut [u8],
) -> Session {
    print(rt, b"power-up");
    let mut staging = [0u8; 64];
    let mut state = [0u8; PART_LIMIT];
    let powered = start_power_up(key, nonce, ring, fram, &mut staging, &mut state);
    let started = powered.map(|powered| powered.job);
    let next = carry_out(rt, started, session, advances, ring, fram, &staging);
    let length = powered.map_or(0, |powered| powered.length);
    if let Some(secret) = state.get(..length)
        && 0 < length
    {
        print(rt, b"; state ");
        print_bytes(rt, secret);
    }
    print_memories(rt, key, ring, fram);
    next
}
