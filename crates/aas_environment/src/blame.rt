// For which document of an environment its import is refused.
ghost use Rattle.std.specs.Prelude.{◌≡◌, None, Some, IfOk, MatchOption};
ghost use Rattle.aas_model.specs.declared.documents.Environment as model;
ghost use Rattle.aas_repo.specs.Faulty.{first_faulty_in};
ghost use Rattle.aas_step.specs.Causes.{first_repeated_in};
ghost use Rattle.aas_environment.specs.Imports.{Place, PointsTo};
ghost use Rattle.aas_environment.specs.Refusing.{BlamesDocument, IsOwn};

use crate::import_fault::ImportFault;
use crate::members::name_of;
use aas_command::Refusal;
use aas_json_table::pointer::{Token, Trail, pointer};
use aas_model::{Collection, Environment, Fault, NoMemory, Text};
use aas_repo::{first_faulty, first_repeated};
use std::alloc::Global;

/// Why a cause of its own refuses an environment: its first document whose identifier is repeated, or else its first
/// faulty one.
pub(crate) fn blame(
    alloc: Global,
    environment: &Environment,
) -> Result<Option<ImportFault>, NoMemory>
    ensures { IfOk result (λ fault. MatchOption fault
        ((first_repeated_in environment.now ≡ None) × (first_faulty_in environment.now ≡ None))
        (BlamesDocument environment.now)) }
{
    if let Some(document) = first_repeated(alloc, environment)? {
        return Ok(Some(ImportFault::Twice {
            pointer: document_pointer(alloc, document)?,
        }));
    }
    match first_faulty(alloc, environment)? {
        Some((document, why)) => Ok(Some(faulty(document_pointer(alloc, document)?, why))),
        None => Ok(None),
    }
}

/// The fault of the document to which a pointer leads.
fn faulty(pointer: Text, why: Refusal) -> ImportFault
    requires { IsOwn why }
    ensures { (e : model.Environment) (document : Place) → first_repeated_in e ≡ None
        → first_faulty_in e ≡ Some (document, why)
        → PointsTo pointer document → BlamesDocument e result }
{
    match why {
        Refusal::Lexical { path } => ImportFault::Rule {
            pointer,
            fault: Fault { number: 0, path },
        },
        Refusal::Constraint { fault } => ImportFault::Rule { pointer, fault },
        Refusal::TooMany => ImportFault::TooMany { pointer },
        _ => unreachable!(),
    }
}

/// The JSON Pointer of the document of a list and of a place in it.
fn document_pointer(alloc: Global, document: (Collection, usize)) -> Result<Text, NoMemory>
    ensures { IfOk result (λ text. PointsTo text document) }
{
    let (collection, place) = document;
    let member = Token::member(alloc, name_of(collection))?;
    let trail = Trail::here(alloc).below(Token::Item(place))?.below(member)?;
    pointer(alloc, &trail)
}
