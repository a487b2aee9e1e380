// Two functions that promise what their counterparts in `ghash` and `octets` promise, with jumps that depend on their operands: a contract
// does not speak of time, so the test has to tell them apart.
ghost use Rattle.std.specs.Prelude.{◌≡◌};
ghost use Rattle.octets.specs.Octets.{same};
ghost use Rattle.ghash.specs.Ghash.{halved};
ghost use Rattle.ghash.specs.Steps.{words};

// A block in two words shifted right by one bit, with R added if the bit that left was 1, by a branch. In another order of the two stores
// the compiler makes a conditional move of it.
#[unsafe(no_mangle)]
pub extern "C" fn variable_time_halve(hi: &mut u64, lo: &mut u64)
    ensures { words hi.new lo.new ≡ halved (words hi.old lo.old) }
{
    let v = *hi;
    let w = *lo;
    *hi = v >> 1;
    *lo = (v << 63) | (w >> 1);
    if w % 2 == 1 {
        *hi = *hi ^ 0xe100_0000_0000_0000;
    }
}

// Whether two strings are equal, with a way out at the first byte that differs. By hand, so that it stands there in plain sight:
// hosts/constant_time has to find this jump.
#[unsafe(no_mangle)]
pub extern "C" fn variable_time_same(a: &[u8], b: &[u8]) -> bool
    ensures { result ≡ same a.now b.now }
{
    if a.len() != b.len() {
        return false;
    }
    let mut i = 0;
    while i < a.len() {
        if a[i] != b[i] {
            return false;
        }
        i += 1;
    }
    true
}
