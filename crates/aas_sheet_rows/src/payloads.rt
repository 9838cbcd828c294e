ghost use Rattle.std.specs.Prelude.{◌≡◌, ◌<◌, length};
ghost use Rattle.aas_sheet_rows.specs.Written.{InRange, with_payload, written};

use crate::row::Kept;
use aas_model::{PatchRow, Payload};

fn put_payload(rows: &mut [Kept], place: usize, payload: &mut Payload)
    requires { place < length rows.old }
    ensures { rows.new ≡ with_payload rows.old place payload.old }
{
    rows[place].swap_payload(payload);
}

/// Puts each payload of a patch into the row of its rank, counted from the row `base` on.
pub(crate) fn put_payloads(rows: &mut [Kept], patch: &mut [PatchRow], base: usize)
    requires { InRange base (length rows.old) patch.old }
    ensures { rows.new ≡ written rows.old base patch.old }
{
    for row in patch.iter_mut() {
        put_payload(rows, base + row.rank as usize, &mut row.payload);
    }
}
