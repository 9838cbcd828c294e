// The bodies of replies to questions about shells and concept descriptions.
ghost use Rattle.std.specs.Prelude.{◌≡◌, ◌⊎◌, Ok, Err, IfOk};
ghost use Rattle.aas_command.specs.declared.refusal.Refusal.TheVariants as refused;
ghost use Rattle.aas_json_mapping.specs.Trees.{concepts};
ghost use Rattle.aas_json_spelling.specs.Spells.{canonical_text};
ghost use Rattle.aas_answer.specs.Answers.{of_concept, of_shell};
ghost use Rattle.aas_answer.specs.Listed.{shell_text};

use crate::forms::ShellForm;
use crate::texts::reference_text;
use aas_command::{Absent, Refusal};
use aas_form::reference_of_shell;
use aas_json_write::{asset_text, concept_text, shell_text};
use aas_model::{Many, NoMemory, Shell, Text};
use aas_store::Store;
use std::alloc::Global;

/// What is told of the shell of the identifier.
pub(crate) fn shell_answer<S: Store>(
    alloc: Global,
    store: &S,
    id: &Text,
    form: ShellForm,
) -> Result<Many<u8>, Refusal>
    ensures { (result ≡ Err refused.NoMemory)
        ⊎ (result ≡ of_shell (S.documents store.now) id.now (λ s. Ok (shell_text form s))) }
{
    match store.shell(id.as_str()) {
        Some(shell) => Ok(shell_told(alloc, shell, form)?),
        None => Err(Refusal::NotFound {
            what: Absent::Shell,
        }),
    }
}

fn shell_told(alloc: Global, shell: &Shell, form: ShellForm) -> Result<Many<u8>, NoMemory>
    ensures { IfOk result (λ text. text ≡ shell_text form shell.now) }
{
    match form {
        ShellForm::Whole => Ok(Many::from(shell_text(alloc, shell)?)),
        ShellForm::Reference => reference_text(alloc, &reference_of_shell(alloc, shell)?),
        ShellForm::Asset => Ok(Many::from(asset_text(alloc, &shell.asset)?)),
    }
}

/// The concept description of the identifier.
pub(crate) fn concept_answer<S: Store>(
    alloc: Global,
    store: &S,
    id: &Text,
) -> Result<Many<u8>, Refusal>
    ensures { (result ≡ Err refused.NoMemory)
        ⊎ (result ≡ of_concept (S.documents store.now) id.now (λ c. Ok (canonical_text concepts c))) }
{
    match store.concept(id.as_str()) {
        Some(concept) => Ok(Many::from(concept_text(alloc, concept)?)),
        None => Err(Refusal::NotFound {
            what: Absent::Concept,
        }),
    }
}
