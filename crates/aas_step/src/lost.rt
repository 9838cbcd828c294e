// Why a request on an element is refused that its path doesn't lead to.
ghost use Rattle.std.specs.Prelude.{◌≡◌, ◌⊎◌, take, IfOk};
ghost use Rattle.aas_command.specs.declared.refusal.Absent.TheVariants as absent;
ghost use Rattle.aas_command.specs.declared.refusal.Refusal.TheVariants.{NoMemory as NoMemoryLeft, NotFound};
ghost use Rattle.aas_command.specs.declared.refusal.Refusal.TheVariants as refused;
ghost use Rattle.aas_step.specs.Lost.{IsRefusalOf};

use aas_command::{Absent, Refusal};
use aas_model::{Duplicate, Many, Missing, NoMemory, Path};
use aas_store::Lack;
use std::alloc::Global;

/// Why a request on an element is refused, by what a store says of it.
pub fn refusal_of(alloc: Global, path: &Path, lack: Lack) -> Refusal
    ensures { (result ≡ refused.NoMemory) ⊎ IsRefusalOf path.now.steps lack result }
{
    match lack {
        Lack::NoSubmodel => Refusal::NotFound {
            what: Absent::Submodel,
        },
        Lack::NoElement(missing) => not_found(alloc, path, missing),
        Lack::NoMemory => Refusal::NoMemory,
    }
}

/// That the path leads nowhere behind its first steps.
pub fn not_found(alloc: Global, path: &Path, missing: Missing) -> Refusal
    ensures { (result ≡ NoMemoryLeft)
        ⊎ (result ≡ NotFound (absent.Element (record { steps = take missing.steps path.now.steps }))) }
{
    match front(alloc, path, missing.steps) {
        Ok(after) => Refusal::NotFound {
            what: Absent::Element { after },
        },
        Err(NoMemory) => Refusal::NoMemory,
    }
}

/// The first steps of a path.
fn front(alloc: Global, path: &Path, count: usize) -> Result<Path, NoMemory>
    ensures { IfOk result (λ front. front.steps ≡ take count path.now.steps) }
{
    let steps = path.steps.as_slice();
    let first = &steps[..count.min(steps.len())];
    let mut front = Many::new(alloc);
    for step in first {
        front.push(step.copy()?)?;
    }
    Ok(Path { steps: front })
}
