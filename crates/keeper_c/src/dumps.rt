// Chains of dumps.
ghost use Rattle.std.specs.Prelude.{◌≡◌};
ghost use Rattle.chain.specs.Chain.{chain_order};
ghost use Rattle.keeper_c.specs.Calls.{answer};

use crate::cipher::answer;
use chain::chain_order;

// Writes the positions of entries in chain order; what it answers and leaves is said in chain.
#[unsafe(no_mangle)]
pub extern "C" fn keeper_chain_order(entries: &[u8], positions: &mut [u8]) -> u32
    ensures { (result ≡ answer (chain_order entries.now positions.old).stop) × (positions.new ≡ (chain_order entries.now positions.old).positions) }
{
    answer(chain_order(entries, positions))
}
