// Wipe (document 01, "What the unit calls").
ghost use Rattle.std.specs.Prelude.{◌≡◌};
ghost use Rattle.protocol.specs.Operations.{wipe};

use octets::fill;

// Zeroes a lent buffer of any length.
pub fn wipe(buffer: &mut [u8])
    ensures { buffer.new ≡ wipe buffer.old }
{
    fill(buffer, 0);
}
