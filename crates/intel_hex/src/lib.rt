// Images as Intel HEX, the text that a bench programmer reads and writes (document 02, A.1).
#![tactic(auto)]

mod export;
mod import;

ghost use Rattle.std.specs.Prelude.{◌≡◌};
ghost use Rattle.intel_hex.specs.Export.{image_wrong};

pub use export::export_image;
pub use import::import_image;
use octets::limits::IMAGE_LIMIT;

// Whether an image of n bytes is refused.
fn image_wrong(n: usize) -> bool
    ensures { result ≡ image_wrong n }
{
    (n == 0) | (n > IMAGE_LIMIT)
}
