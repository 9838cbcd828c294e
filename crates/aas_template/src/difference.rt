ghost use Rattle.std.specs.Prelude.{◌≡◌, [], IfOk};
ghost use Rattle.aas_template.specs.Differences.{difference, under};

use aas_model::{Many, NoMemory, Path, PathStep};
use std::alloc::Global;

/// What an instance has otherwise than its template.
#[derive(Clone, Copy, Debug, Drop)]
pub enum Reason {
    /// The kind of the element.
    KindDiffers,
    /// `valueType` of a Property or a Range, or `typeValueListElement` or `valueTypeListElement` of a list.
    TypeDiffers,
    /// `semanticId`, where the template has one.
    SemanticDiffers,
    /// How many elements there are.
    CountDiffers,
}

/// A difference between an instance and its template.
#[derive(Debug, Drop)]
pub struct Difference {
    /// Where it is, in the instance; empty for the submodel itself.
    pub path: Path,
    pub reason: Reason,
}

/// A difference of what is looked at itself.
pub(crate) fn here(alloc: Global, reason: Reason) -> Difference
    ensures { result ≡ difference [] reason }
{
    Difference {
        path: Path {
            steps: Many::new(alloc),
        },
        reason,
    }
}

/// The same difference, seen from one step above.
pub(crate) fn under(step: PathStep, difference: Difference) -> Result<Difference, NoMemory>
    ensures { IfOk result (λ d. d ≡ under step difference) }
{
    let mut difference = difference;
    difference.path.steps.insert(0, step)?;
    Ok(difference)
}
