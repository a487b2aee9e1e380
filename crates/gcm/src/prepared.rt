// What is made of a key before its first use, and overwritten after its last.
ghost use Rattle.std.specs.Prelude.{◌≡◌, length};
ghost use Rattle.aes.specs.Cipher.{cipher, aes};
ghost use Rattle.ghash.specs.Steps.{Steps};
ghost use Rattle.gcm.specs.Gcm.{hash_subkey};
ghost use Rattle.gcm.specs.Calls.{KeyLength};

use super::tag::{hash_steps, wipe_steps};
use aes::cipher::Schedule;
use aes::table::round_table;
use aes::{expand_key, rounds};
use octets::fill;

// All that is made of a key, lent from where it lies: its schedule, and the steps of the hash subkey, which hash_steps makes.
#[derive(Clone, Copy)]
pub struct Prepared<'a> {
    pub schedule: Schedule<'a>,
    pub steps: &'a [u64; 256],
    pub ghost steps_right: { Steps (hash_subkey (cipher schedule.rounds schedule.keys.now)) steps.now },
}

// Calls f with what is made of a key. Round keys and steps are overwritten in the end, as far as the compiler keeps it.
pub fn with_key<T, F: FnMut(&Prepared<'_>) -> T>(key: &[u8], f: &mut F) -> T
    requires key_fits { KeyLength (length key.now) }
    requires callable { (p : _) → cipher p.now.schedule.rounds p.now.schedule.keys.now ≡ aes key.now → F.pre f.old p }
    ensures { (p : _) × (cipher p.now.schedule.rounds p.now.schedule.keys.now ≡ aes key.now) × F.step f.old p result f.new }
{
    let table = round_table();
    let mut keys = expand_key(key);
    let schedule = Schedule {
        table: &table,
        keys: &keys,
        rounds: rounds(key.len()),
    };
    let mut steps = hash_steps(&schedule);
    let prepared = Prepared {
        schedule,
        steps: &steps,
    };
    let answer = f(&prepared);
    fill(&mut keys, 0);
    wipe_steps(&mut steps);
    answer
}
