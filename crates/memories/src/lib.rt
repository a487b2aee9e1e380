// Both memories as the calls read them, and the stops that calls have in common: those of the memories, which every call on them tries first,
// and those of what a ring reads as.
#![tactic(auto)]

ghost use Rattle.std.specs.Prelude.{◌≡◌, false};
ghost use Rattle.stops.specs.Stops.{first_of};
ghost use Rattle.stops.specs.View.{check_number};
ghost use Rattle.ring.specs.Ring.{ring_wrong};
ghost use Rattle.ring.specs.View.{newest};
ghost use Rattle.memories.specs.Read.{ReadFrom};
ghost use Rattle.memories.specs.Stages.{of_memories, of_newest};

use checkpoint::fram::fram_wrong;
use ring::{Newest, Reading, Ring, ring_wrong};
use stops::{Stop, StopIf};

// A ring of so many pages of so many slots, and the FRAM, as images. Each is lent for a time of its own: what is handed back of the one keeps
// nothing of the other.
#[derive(Clone, Copy)]
pub struct Memories<'r, 'f> {
    pub pages: usize,
    pub slots: usize,
    pub ring: &'r [u8],
    pub fram: &'f [u8],
}

impl<'r, 'f> Memories<'r, 'f> {
    // Stops 1 and 2.
    pub fn check(&self) -> Result<(), Stop>
        ensures { check_number result ≡ first_of (of_memories self.now.pages self.now.slots self.now.ring.now self.now.fram.now) }
    {
        Ok(())
            .stop_if(
                ring_wrong(self.ring, self.pages, self.slots),
                Stop::RingSize,
            )
            .stop_if(fram_wrong(self.fram), Stop::FramSize)
    }

    // What the ring reads as, where stop 1 does not apply.
    pub fn read(&self) -> Reading<'r>
        requires { ring_wrong self.now.pages self.now.slots self.now.ring.now ≡ false }
        ensures { ReadFrom result self.now.pages self.now.slots self.now.ring.now }
    {
        let ring = Ring {
            bytes: self.ring,
            pages: self.pages,
            slots: self.slots,
        };
        Reading {
            ring,
            found: ring.read(),
        }
    }
}

// Stops 6 and 7, of a ring that reads as `found`.
pub fn check_newest(found: Newest) -> Result<(), Stop>
    ensures { check_number result ≡ first_of (of_newest (newest found)) }
{
    Ok(())
        .stop_if(found.is_blank(), Stop::RingBlank)
        .stop_if(found.is_unreadable(), Stop::RingUnreadable)
}
