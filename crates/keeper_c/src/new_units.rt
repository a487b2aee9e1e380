// The memories of new units.
ghost use Rattle.std.specs.Prelude.{◌≡◌};
ghost use Rattle.look.specs.View.{looks};
ghost use Rattle.factory.specs.Factory.{factory_stop};
ghost use Rattle.keeper_c.specs.Calls.{answer};

use crate::cipher::answer;
use factory::factory_check;
use memories::Memories;

// Checks a ring and a FRAM image that should be what a first save leaves; what it answers is said in factory.
#[unsafe(no_mangle)]
pub extern "C" fn keeper_factory_check(
    pages: usize,
    slots: usize,
    ring: &[u8],
    fram: &[u8],
    key: &[u8],
) -> u32
    ensures { result ≡ answer (factory_stop ring.now fram.now (looks pages slots key.now)) }
{
    let memories = Memories {
        pages,
        slots,
        ring,
        fram,
    };
    answer(factory_check(&memories, key))
}
