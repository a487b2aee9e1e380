// The FRAM's one store: a word of staging copied to a half.
ghost use Rattle.std.specs.Prelude.{◌≡◌, ◌+◌, ◌*◌, ◌≤◌, length};
ghost use Rattle.octets.specs.Octets.{part, put};
ghost use Rattle.checkpoint.specs.Fram.{half_length};

use octets::{copy, part};

// Copies word w of staging over word w of a half.
pub(crate) fn copy_word(fram: &mut [u8], half: usize, staging: &[u8], w: usize)
    requires { (half * half_length fram.old + 4 * w + 4 ≤ length fram.old) × (4 * w + 4 ≤ length staging.now) }
    ensures { fram.new ≡ put fram.old (half * half_length fram.old + 4 * w) (part staging.now (4 * w) 4) }
{
    let b = 4 * w;
    let a = half * (fram.len() / 2) + b;
    let e = a + 4;
    copy(part(staging, b, 4), &mut fram[a..e]);
}
