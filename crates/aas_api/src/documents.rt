// The documents of the three interfaces, and what is asked of them.
ghost use Rattle.std.specs.Prelude.{◌≡◌, ◌∷◌, [], bytes_eq, IfOk, Ok};
ghost use Rattle.aas_json_table.specs.TooDeep.{limits};
ghost use Rattle.aas_json_spelling.specs.Reads.{ReadsBytes};
ghost use Rattle.aas_target.specs.Given.{shown_of};
ghost use Rattle.aas_target.specs.Routes.{IsOneOf};
ghost use Rattle.aas_target.specs.declared.given.Given as declared;
ghost use Rattle.aas_target.specs.declared.method.Method.TheVariants.{Get, Post, Put, Delete};
ghost use Rattle.aas_api.specs.Asked.{AsksCollection, AsksDocument, ByBody, ById, IsCommand, OrNoMemory};
ghost use Rattle.aas_api.specs.Asked.{Shows, if_same};
ghost use Rattle.aas_api.specs.Interfaces.{Interface, concept_interface, shell_interface, submodel_interface};
ghost use Rattle.aas_api.specs.declared.ask.Ask.TheVariants.{Act};

use crate::ask::Ask;
use crate::segments::{given_by, identifier, shown_by};
use aas_command::{Command, Refusal};
use aas_document_read::read_tree;
use aas_model::{Boxed, Concept, NoMemory, ReadFault, Shell, Submodel, Text};
use aas_question::Question;
use aas_target::{Given, Method, Resource, Shown};
use std::alloc::Global;

/// A document that an interface of the repository holds, and the commands and the questions of that interface
/// (IDTA-01002-3-0).
pub(crate) trait Document: Drop + Sized {
    ghost interface: { Interface Self };

    /// The document that the bytes spell as a JSON text.
    fn read(alloc: Global, bytes: &[u8]) -> Result<Self, ReadFault>
        ensures { ReadsBytes interface.documents limits result bytes.now };

    fn id(&self) -> &Text
        ensures { result.now ≡ interface.id_of self.now };

    fn create(self, alloc: Global) -> Result<Command, NoMemory>
        ensures { IfOk result (λ command. command ≡ interface.create self) };

    fn replace(self, alloc: Global) -> Result<Command, NoMemory>
        ensures { IfOk result (λ command. command ≡ interface.replace self) };

    fn delete(id: Text) -> Command
        ensures { result ≡ interface.delete id };

    /// What a GET of all documents asks, by what the query gives.
    fn list(alloc: Global, given: Given) -> Result<Question, NoMemory>
        ensures { IfOk result (λ question. question ≡ interface.list given) };

    /// What a GET of the document asks.
    fn get(id: Text, shown: Shown) -> Question
        ensures { (given : declared.Given) → shown ≡ shown_of given → result ≡ interface.get id given };
}

impl Document for Shell {
    ghost interface = { shell_interface };

    fn read(alloc: Global, bytes: &[u8]) -> Result<Shell, ReadFault> {
        read_tree(alloc, bytes, 1)
    }

    fn id(&self) -> &Text {
        &self.head.id
    }

    fn create(self, alloc: Global) -> Result<Command, NoMemory> {
        Ok(Command::CreateShell {
            document: Boxed::new(alloc, self)?,
        })
    }

    fn replace(self, alloc: Global) -> Result<Command, NoMemory> {
        Ok(Command::ReplaceShell {
            document: Boxed::new(alloc, self)?,
        })
    }

    fn delete(id: Text) -> Command {
        Command::DeleteShell { id }
    }

    fn list(alloc: Global, given: Given) -> Result<Question, NoMemory> {
        Ok(Question::Shells {
            selection: Boxed::new(alloc, given.into_selection())?,
        })
    }

    fn get(id: Text, _shown: Shown) -> Question {
        Question::Shell { id }
    }
}

impl Document for Submodel {
    ghost interface = { submodel_interface };

    fn read(alloc: Global, bytes: &[u8]) -> Result<Submodel, ReadFault> {
        read_tree(alloc, bytes, 1)
    }

    fn id(&self) -> &Text {
        &self.head.id
    }

    fn create(self, alloc: Global) -> Result<Command, NoMemory> {
        Ok(Command::CreateSubmodel {
            document: Boxed::new(alloc, self)?,
        })
    }

    fn replace(self, alloc: Global) -> Result<Command, NoMemory> {
        Ok(Command::ReplaceSubmodel {
            document: Boxed::new(alloc, self)?,
        })
    }

    fn delete(id: Text) -> Command {
        Command::DeleteSubmodel { id }
    }

    fn list(alloc: Global, given: Given) -> Result<Question, NoMemory> {
        let shown = given.shown();
        Ok(Question::Submodels {
            level: shown.level,
            extent: shown.extent,
            selection: Boxed::new(alloc, given.into_selection())?,
        })
    }

    fn get(id: Text, shown: Shown) -> Question {
        Question::Submodel {
            id,
            level: shown.level,
            extent: shown.extent,
        }
    }
}

impl Document for Concept {
    ghost interface = { concept_interface };

    fn read(alloc: Global, bytes: &[u8]) -> Result<Concept, ReadFault> {
        read_tree(alloc, bytes, 1)
    }

    fn id(&self) -> &Text {
        &self.head.id
    }

    fn create(self, alloc: Global) -> Result<Command, NoMemory> {
        Ok(Command::CreateConcept {
            document: Boxed::new(alloc, self)?,
        })
    }

    fn replace(self, alloc: Global) -> Result<Command, NoMemory> {
        Ok(Command::ReplaceConcept {
            document: Boxed::new(alloc, self)?,
        })
    }

    fn delete(id: Text) -> Command {
        Command::DeleteConcept { id }
    }

    fn list(alloc: Global, given: Given) -> Result<Question, NoMemory> {
        Ok(Question::Concepts {
            selection: Boxed::new(alloc, given.into_selection())?,
        })
    }

    fn get(id: Text, _shown: Shown) -> Question {
        Question::Concept { id }
    }
}

/// What is asked of all documents of an interface.
pub(crate) fn ask_collection<D: Document>(
    alloc: Global,
    resource: Resource,
    method: Method,
    query: &[u8],
    body: &[u8],
) -> Result<Ask, Refusal>
    requires { IsOneOf method (Get ∷ Post ∷ []) }
    ensures { OrNoMemory (AsksCollection D.interface resource query.now body.now method) result }
{
    match method {
        Method::Get => list::<D>(alloc, resource, query),
        Method::Post => create::<D>(alloc, body),
        _ => unreachable!(),
    }
}

/// What is asked of one document of an interface, whose identifier is in the segment.
pub(crate) fn ask_document<D: Document>(
    alloc: Global,
    resource: Resource,
    segment: &[u8],
    method: Method,
    query: &[u8],
    body: &[u8],
) -> Result<Ask, Refusal>
    requires { IsOneOf method (Get ∷ Put ∷ Delete ∷ []) }
    ensures { OrNoMemory (AsksDocument D.interface resource segment.now query.now body.now method) result }
{
    match method {
        Method::Get => get::<D>(alloc, resource, segment, query),
        Method::Put => replace::<D>(alloc, segment, body),
        Method::Delete => delete::<D>(alloc, segment),
        _ => unreachable!(),
    }
}

// ---- one function a method

fn list<D: Document>(alloc: Global, resource: Resource, query: &[u8]) -> Result<Ask, Refusal>
    ensures { OrNoMemory (Shows resource query.now D.interface.list) result }
{
    let given = given_by(alloc, resource, query)?;
    Ok(Ask::Answer {
        question: D::list(alloc, given)?,
    })
}

fn create<D: Document>(alloc: Global, body: &[u8]) -> Result<Ask, Refusal>
    ensures { OrNoMemory
        (ByBody D.interface.documents limits body.now (λ document. Ok (Act (D.interface.create document)))) result }
{
    let document = D::read(alloc, body)?;
    Ok(Ask::Act {
        command: document.create(alloc)?,
    })
}

fn get<D: Document>(
    alloc: Global,
    resource: Resource,
    segment: &[u8],
    query: &[u8],
) -> Result<Ask, Refusal>
    ensures { OrNoMemory (ById segment.now (λ id. Shows resource query.now (D.interface.get id))) result }
{
    let id = identifier(alloc, segment)?;
    let shown = shown_by(alloc, resource, query)?;
    Ok(Ask::Answer {
        question: D::get(id, shown),
    })
}

fn replace<D: Document>(alloc: Global, segment: &[u8], body: &[u8]) -> Result<Ask, Refusal>
    ensures { OrNoMemory (ById segment.now (λ id. ByBody D.interface.documents limits body.now
        (λ document. if_same (bytes_eq id (D.interface.id_of document)) (Act (D.interface.replace document))))) result }
{
    let id = identifier(alloc, segment)?;
    let document = D::read(alloc, body)?;
    if !id.same(document.id()) {
        return Err(Refusal::IdMismatch);
    }
    Ok(Ask::Act {
        command: document.replace(alloc)?,
    })
}

fn delete<D: Document>(alloc: Global, segment: &[u8]) -> Result<Ask, Refusal>
    ensures { OrNoMemory (ById segment.now (λ id. IsCommand (D.interface.delete id))) result }
{
    let id = identifier(alloc, segment)?;
    Ok(Ask::Act {
        command: D::delete(id),
    })
}
