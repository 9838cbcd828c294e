// Metadata put in the place of what there is, by a command that is made of what a store has.
ghost use Rattle.std.specs.Prelude.{◌≡◌, ◌⊎◌, Err, IfOk};
ghost use Rattle.aas_command.specs.Commands.{IsWellFormed};
ghost use Rattle.aas_command.specs.declared.refusal.Refusal.TheVariants as refused;
ghost use Rattle.aas_step.specs.Valid.{AreValid};
ghost use Rattle.aas_api.specs.declared.ask.Metadata.TheVariants as metadata;
ghost use Rattle.aas_api_service.specs.Described.{IsDescribed, PutsElement};
ghost use Rattle.aas_api_service.specs.WellFormed.{IsWellFormedMetadata};

use crate::laws::metadata_is_put_by_well_formed_commands;
use aas_api::Metadata;
use aas_command::{Absent, Command, Refusal};
use aas_meta_update::{MetaFault, put_metadata, put_metadata_of};
use aas_model::{Boxed, Element, Path, Role, Submodel, Text};
use aas_step::refusal_of;
use aas_store::Store;
use std::alloc::Global;

/// The command by which metadata is put in the place of what a store has, or why there is none.
pub(crate) fn metadata_command<S: Store>(
    alloc: Global,
    store: &S,
    metadata: Metadata,
) -> Result<Command, Refusal>
    requires valid { AreValid (S.documents store.now) }
    requires well_formed { IsWellFormedMetadata metadata }
    ensures described { (result ≡ Err refused.NoMemory) ⊎ IsDescribed (S.documents store.now) metadata result }
    ensures well_formed { IfOk result IsWellFormed }
{
    metadata_is_put_by_well_formed_commands();
    match metadata {
        Metadata::Submodel { form } => described_submodel(alloc, store, &form),
        Metadata::Element {
            submodel,
            path,
            form,
        } => described_element(alloc, store, submodel, path, &form),
    }
}

fn described_submodel<S: Store>(
    alloc: Global,
    store: &S,
    form: &Boxed<Submodel>,
) -> Result<Command, Refusal>
    ensures { (result ≡ Err refused.NoMemory)
        ⊎ IsDescribed (S.documents store.now) (metadata.Submodel form.now) result }
{
    let Some(submodel) = store.submodel(form.get().head.id.as_str())? else {
        return Err(Refusal::NotFound {
            what: Absent::Submodel,
        });
    };
    let described = put_metadata_of(&submodel, form.get())?;
    Ok(Command::ReplaceSubmodel {
        document: Boxed::new(alloc, described)?,
    })
}

fn described_element<S: Store>(
    alloc: Global,
    store: &S,
    submodel: Text,
    path: Path,
    form: &Boxed<Element>,
) -> Result<Command, Refusal>
    ensures { (result ≡ Err refused.NoMemory)
        ⊎ IsDescribed (S.documents store.now) (metadata.Element submodel path form.now) result }
{
    match store.element(submodel.as_str(), &path) {
        Ok(element) => described_by(alloc, submodel, path, &element, form.get()),
        Err(lack) => Err(refusal_of(alloc, &path, lack)),
    }
}

/// The element with the metadata of a form, in the place of itself.
fn described_by(
    alloc: Global,
    submodel: Text,
    path: Path,
    element: &Element,
    form: &Element,
) -> Result<Command, Refusal>
    ensures { (result ≡ Err refused.NoMemory) ⊎ PutsElement submodel path form.now element.now result }
{
    match put_metadata(element, form) {
        Ok(put) => Ok(Command::ReplaceElement {
            submodel,
            path,
            element: Boxed::new(
                alloc,
                Element {
                    role: Role::Member,
                    ..put
                },
            )?,
        }),
        Err(MetaFault::Differs) => Err(Refusal::Shape { path }),
        Err(MetaFault::NoMemory) => Err(Refusal::NoMemory),
    }
}
