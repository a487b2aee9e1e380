// The FRAM image and its parts.
ghost use Rattle.std.specs.Prelude.{◌≡◌, false, ◌≤◌, length};
ghost use Rattle.octets.specs.Limits.{part_limit, fram_limit};
ghost use Rattle.checkpoint.specs.Fram.{fram_wrong, half_length, half_at};
ghost use Rattle.checkpoint.specs.Checkpoint.{part_wrong};

use octets::limits::{FRAM_LEAST, FRAM_LIMIT, FRAM_STEP, PART_LIMIT};
use octets::part;

// Stop 2.
pub fn fram_wrong(fram: &[u8]) -> bool
    ensures { result ≡ fram_wrong fram_limit fram.now }
{
    (fram.len() < FRAM_LEAST) | (FRAM_LIMIT < fram.len()) | (fram.len() % FRAM_STEP != 0)
}

// Stop 4 of a part.
pub fn part_wrong(part: &[u8]) -> bool
    ensures { result ≡ part_wrong part_limit part.now }
{
    (part.len() % 4 != 0) | (PART_LIMIT < part.len())
}

// A half itself: 0 is A and 1 is B.
pub fn half_at(fram: &[u8], half: usize) -> &[u8]
    requires { (fram_wrong fram_limit fram.now ≡ false) × (half ≤ 1) }
    ensures { (result.now ≡ half_at fram.now half) × (length result.now ≡ half_length fram.now) }
{
    let n = fram.len() / 2;
    part(fram, half * n, n)
}
