// Images as Intel HEX.
ghost use Rattle.std.specs.Prelude.{◌≡◌};
ghost use Rattle.intel_hex.specs.Import.{import};
ghost use Rattle.keeper_c.specs.Calls.{answer, export_call, exporting_left};

use crate::cipher::answer;
use intel_hex::{export_image, import_image};
use stops::stop_number;

// Writes an image as Intel HEX to the front of `text`, and its length to `written`.
#[unsafe(no_mangle)]
pub extern "C" fn keeper_hex_export(image: &[u8], text: &mut [u8], written: &mut usize) -> u32
    ensures { exporting_left result text.new written.new ≡ export_call image.now text.old written.old }
{
    match export_image(image, text) {
        Err(stop) => stop_number(stop),
        Ok(n) => {
            *written = n;
            0
        }
    }
}

// Stores the data of a text of Intel HEX in an image; what it answers and leaves is said in intel_hex.
#[unsafe(no_mangle)]
pub extern "C" fn keeper_hex_import(text: &[u8], image: &mut [u8]) -> u32
    ensures { (result ≡ answer (import text.now image.old).stop) × (image.new ≡ (import text.now image.old).image) }
{
    answer(import_image(text, image))
}
