// Save and power-up.
ghost use Rattle.std.specs.Prelude.{◌≡◌};
ghost use Rattle.saves.specs.View.{view_from, save_arguments};
ghost use Rattle.keeper.specs.View.{powers_up};
ghost use Rattle.keeper_c.specs.Calls.{starting_left, saving_left, saves_in, save_call, power_up_call};
ghost use Rattle.keeper_c.specs.Inner.{whole_from};

use crate::cipher::stopped;
use job_bytes::{JOB_LENGTH, SESSION_LENGTH, put_job, session_in};
use keeper::{PoweredUp, power_up, power_up_check};
use memories::Memories;
use saves::{Draft, From, from_session, from_tag};
use stops::{Stop, stop_number};

// What a save follows, from its buffer.
fn from_in(bytes: &[u8]) -> From
    ensures { view_from result ≡ whole_from bytes.now }
{
    if bytes.len() == SESSION_LENGTH {
        return from_session(session_in(bytes));
    }
    from_tag(bytes)
}

// Seals a checkpoint into staging, and writes the job that stores it. `from` is a starting tag of 16 bytes or a session of 48.
#[unsafe(no_mangle)]
pub extern "C" fn keeper_save(
    pages: usize,
    slots: usize,
    ring: &[u8],
    fram: &[u8],
    key: &[u8],
    nonce: &[u8],
    from: &[u8],
    packet: u32,
    open_part: &[u8],
    secret: &[u8],
    staging: &mut [u8],
    job: &mut [u8],
) -> u32
    ensures { saving_left result staging.new job.new ≡ save_call ring.now fram.now (saves_in (save_arguments pages slots key.now nonce.now packet open_part.now secret.now staging.old) from.now) job.old }
{
    let memories = Memories {
        pages,
        slots,
        ring,
        fram,
    };
    let draft = Draft {
        key,
        nonce,
        packet: packet as usize,
        open_part,
        secret,
    };
    let follows = from_in(from);
    if job.len() != JOB_LENGTH {
        let check = follows.save_check(&memories, &draft, staging);
        return stopped(check, Stop::BadJob);
    }
    let started = follows.save(&memories, &draft, staging);
    match started {
        Err(stop) => stop_number(stop),
        Ok(made) => {
            put_job(job, made);
            0
        }
    }
}

// Opens the newest checkpoint into state, seals it anew into staging, and writes the job that stores it and the length of the secret part.
#[unsafe(no_mangle)]
pub extern "C" fn keeper_power_up(
    pages: usize,
    slots: usize,
    ring: &[u8],
    fram: &[u8],
    key: &[u8],
    nonce: &[u8],
    staging: &mut [u8],
    state: &mut [u8],
    job: &mut [u8],
    secret_len: &mut usize,
) -> u32
    ensures { starting_left result staging.new state.new job.new secret_len.new ≡ power_up_call ring.now fram.now (powers_up pages slots key.now nonce.now staging.old state.old) job.old secret_len.old }
{
    let memories = Memories {
        pages,
        slots,
        ring,
        fram,
    };
    if job.len() != JOB_LENGTH {
        let check = power_up_check(&memories, key, nonce, staging, state);
        return stopped(check, Stop::BadJob);
    }
    let powered = power_up(&memories, key, nonce, staging, state);
    match powered {
        Err(stop) => stop_number(stop),
        Ok(PoweredUp { job: made, length }) => {
            put_job(job, made);
            *secret_len = length;
            0
        }
    }
}
