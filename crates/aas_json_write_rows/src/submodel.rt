// A submodel, from its head and the rows of its elements.
ghost use Rattle.std.specs.Prelude.{◌≡◌, List};
ghost use Rattle.aas_form.specs.CoreForm.{submodel_core};
ghost use Rattle.aas_form.specs.WithoutBlobs.{submodel_without_blobs};
ghost use Rattle.aas_json_mapping.specs.Trees.{submodels};
ghost use Rattle.aas_json_spelling.specs.Spells.{canonical_text};
ghost use Rattle.aas_json_write_members.specs.Heads.{submodel_text};
ghost use Rattle.aas_model.specs.declared.element.Element.{Element};
ghost use Rattle.aas_out.specs.Adds.{Adds};
ghost use Rattle.aas_json_write_rows.specs.Elements.{elements_of};
ghost use Rattle.aas_json_write_rows.specs.Poured.{AreLow};
ghost use Rattle.aas_json_write_rows.specs.Shown.{show_at};
ghost use Rattle.aas_json_write_rows.specs.Submodels.{with_elements};
ghost use Rattle.aas_rows.specs.Rows.{rows_of_all};

use crate::elements::pour_elements;
use crate::rows::Rows;
use crate::show::show_at;
use aas_json_write_members::{CanonicalMembers, begin_submodel, end_submodel};
use aas_model::{Extent, Level, Submodel};
use aas_out::{Pouring, TextEnd};

/// Puts the text of a submodel whose elements these rows list, at a level and to an extent. What elements `head` itself
/// has counts for nothing.
///
/// Where the rows are those of trees, it is the canonical text of the submodel with these trees: at Core of its core
/// form, and without Blob values of it with no value in any Blob.
pub fn pour_submodel<R: Rows, O: TextEnd>(
    so_far: Pouring,
    head: &Submodel,
    rows: &R,
    level: Level,
    extent: Extent,
    out: &mut O,
) -> Pouring
    requires { AreLow (R.Rows.lines rows.now) }
    ensures text { Adds so_far result (O.told out.old) (O.told out.new)
        (submodel_text head.now (elements_of (show_at 0 level extent) (R.Rows.lines rows.now))) }
    ensures canonical { (es : List Element) → R.Rows.lines rows.now ≡ rows_of_all es 1
        → Adds so_far result (O.told out.old) (O.told out.new)
        (canonical_text submodels (submodel_without_blobs extent (submodel_core level (with_elements head.now es)))) }
{
    let before = begin_submodel(so_far, head, out);
    let show = show_at(0, level, extent);
    let elements = pour_elements(before, rows, &CanonicalMembers, show, out);
    end_submodel(elements, head, out)
}
