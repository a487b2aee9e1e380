// The rings of the bench.
ghost use Rattle.std.specs.Prelude.{◌≡◌};
ghost use Rattle.ring_shapes.specs.Shapes.{ring_shape};
ghost use Rattle.keeper_c.specs.Calls.{answer};

use crate::cipher::answer;
use ring_shapes::ring_shape;

// Writes a ring of the bench, by its number; what it answers and leaves is said in ring_shapes.
#[unsafe(no_mangle)]
pub extern "C" fn keeper_ring_shape(
    pages: usize,
    slots: usize,
    number: usize,
    ring: &mut [u8],
) -> u32
    ensures { (result ≡ answer (ring_shape pages slots number ring.old).stop) × (ring.new ≡ (ring_shape pages slots number ring.old).ring) }
{
    answer(ring_shape(pages, slots, number, ring))
}
