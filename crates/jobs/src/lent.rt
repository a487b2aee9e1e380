// The lent form of an advance, for the firmware's main loop.
ghost use Rattle.std.specs.Prelude.{◌≡◌};
ghost use Rattle.protocol.specs.Types.{this_firmware};
ghost use Rattle.protocol.specs.Operations.{advance};
ghost use Rattle.jobs.specs.View.{view_moved, advances};

use crate::types::{Advanced, Job, Progress};
use stops::Stop;

// Advances the job where it lives: takes it out, advances it by value and stores the new one in its place.
pub fn advance_lent(
    job: &mut Job,
    pages: usize,
    slots: usize,
    ring: &mut [u8],
    fram: &mut [u8],
    staging: &[u8],
) -> Result<Progress, Stop>
    ensures { view_moved result job.new ring.new fram.new ≡ advance this_firmware ring.old fram.old (advances pages slots job.old staging.now) }
{
    let Advanced {
        progress,
        job: next,
    } = job.advance(pages, slots, ring, fram, staging)?;
    *job = next;
    Ok(progress)
}
