// Lists of settings.
ghost use Rattle.std.specs.Prelude.{◌≡◌};
ghost use Rattle.settings.specs.Settings.{settings_write};
ghost use Rattle.keeper_c.specs.Calls.{answer, settings_call, settings_left};

use crate::cipher::answer;
use settings::{settings_read, settings_write};
use stops::stop_number;

// The volume and the alert delay of a list.
#[unsafe(no_mangle)]
pub extern "C" fn keeper_settings_read(list: &[u8], volume: &mut u32, delay: &mut u32) -> u32
    ensures { settings_left result volume.new delay.new ≡ settings_call list.now volume.old delay.old }
{
    match settings_read(list) {
        Err(stop) => stop_number(stop),
        Ok(settings) => {
            *volume = settings.volume;
            *delay = settings.delay;
            0
        }
    }
}

// Changes one setting of a list where it stands; what it answers and leaves is said in settings.
#[unsafe(no_mangle)]
pub extern "C" fn keeper_settings_write(list: &mut [u8], kind: u32, value: u32) -> u32
    ensures { (result ≡ answer (settings_write list.old kind value).stop) × (list.new ≡ (settings_write list.old kind value).list) }
{
    answer(settings_write(list, kind, value))
}
