// What is shown at a level and to an extent.
ghost use Rattle.std.specs.Prelude.{◌≡◌};
ghost use Rattle.aas_json_write_rows.specs.Shown.{show_at};

use aas_json_write_members::Show;
use aas_model::{Extent, Level};

/// A level at which no element stands, since none stands deeper than level 30.
const PAST_ALL: u64 = 31;

/// What is shown of what stands at a level in its document.
pub fn show_at(at: u32, level: Level, extent: Extent) -> Show
    ensures { result ≡ show_at at level extent }
{
    let cut = match level {
        Level::Deep => PAST_ALL,
        Level::Core => u64::from(at) + 1,
    };
    Show {
        cut,
        blobs: matches!(extent, Extent::WithBlobValue),
    }
}
