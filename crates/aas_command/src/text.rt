// The texts of refusals.
ghost use Rattle.std.specs.Prelude.{◌≡◌, ◌++◌, codes, IfOk, OnOk};
ghost use Rattle.aas_command.specs.Refusals.{absent_text, constraint_name, text_of};
ghost use Rattle.aas_path.specs.PathText.{fault_path_text};

use crate::{Absent, Refusal};
use aas_model::{Fault, NoMemory, Path};
use aas_path::print_fault_path;
use itoa::Buffer;
use std::alloc::Global;

impl Refusal {
    /// What the refusal says, in UTF-8.
    pub fn text(&self, alloc: Global) -> Result<Vec<u8>, NoMemory>
        ensures { IfOk result (λ text. text.items ≡ text_of self.now) }
    {
        match self {
            Refusal::NoMemory => join_words(alloc, "out of memory", ""),
            Refusal::BadRequest => join_words(alloc, "bad request", ""),
            Refusal::TooLarge => join_words(alloc, "too large", ""),
            Refusal::NotImplemented => join_words(alloc, "not implemented", ""),
            Refusal::NoRoute => join_words(alloc, "no route", ""),
            Refusal::NotAllowed { .. } => join_words(alloc, "method not allowed", ""),
            Refusal::BadIdentifier => join_words(alloc, "bad identifier", ""),
            Refusal::BadPath { at } => join_words(alloc, "bad path at ", Buffer::new().format(*at)),
            Refusal::BadQuery { name } => join_words(alloc, "bad query: ", name.as_str()),
            Refusal::NotJson => join_words(alloc, "not JSON", ""),
            Refusal::NotMapping { pointer } => {
                join_words(alloc, "not in the mapping at ", pointer.as_str())
            }
            Refusal::TooDeep { pointer } => join_words(alloc, "too deep at ", pointer.as_str()),
            Refusal::IdMismatch => join_words(alloc, "identifiers differ", ""),
            Refusal::NotFound { what } => not_found_text(alloc, what),
            Refusal::Conflict => join_words(alloc, "already there", ""),
            Refusal::NotAContainer => join_words(alloc, "not a container", ""),
            Refusal::NoValueForm => join_words(alloc, "no value form", ""),
            Refusal::Shape { path } => with_path(alloc, "wrong shape at ", path),
            Refusal::Lexical { path } => with_path(alloc, "lexical fault at ", path),
            Refusal::Constraint { fault } => constraint_text(alloc, fault),
            Refusal::TooMany => join_words(alloc, "too many elements", ""),
            Refusal::StorageFull => join_words(alloc, "storage full", ""),
            Refusal::StorageFault => join_words(alloc, "storage fault", ""),
        }
    }
}

impl Absent {
    /// Appends what isn't there, in words. After an error a part of them may stand there.
    fn append_to(&self, out: &mut Vec<u8>) -> Result<(), NoMemory>
        ensures { OnOk result (out.new.items ≡ out.old.items ++ absent_text self.now) }
    {
        match self {
            Absent::Shell => out.extend_from_slice(b"shell")?,
            Absent::SubmodelReference => out.extend_from_slice(b"submodel reference")?,
            Absent::Submodel => out.extend_from_slice(b"submodel")?,
            Absent::Concept => out.extend_from_slice(b"concept description")?,
            Absent::Element { after } => {
                out.extend_from_slice(b"element after ")?;
                print_fault_path(after, out)?;
            }
        }
        Ok(())
    }
}

fn join_words(alloc: Global, words: &str, rest: &str) -> Result<Vec<u8>, NoMemory>
    ensures { IfOk result (λ text. text.items ≡ words.now ++ rest.now) }
{
    let mut text = Vec::from_slice(alloc, words.as_bytes())?;
    text.extend_from_slice(rest.as_bytes())?;
    Ok(text)
}

fn with_path(alloc: Global, words: &str, path: &Path) -> Result<Vec<u8>, NoMemory>
    ensures { IfOk result (λ text. text.items ≡ words.now ++ fault_path_text path.now.steps) }
{
    let mut text = Vec::from_slice(alloc, words.as_bytes())?;
    print_fault_path(path, &mut text)?;
    Ok(text)
}

fn not_found_text(alloc: Global, what: &Absent) -> Result<Vec<u8>, NoMemory>
    ensures { IfOk result (λ text. text.items ≡ codes "not found: " ++ absent_text what.now) }
{
    let mut text = Vec::from_slice(alloc, b"not found: ")?;
    what.append_to(&mut text)?;
    Ok(text)
}

fn constraint_text(alloc: Global, fault: &Fault) -> Result<Vec<u8>, NoMemory>
    ensures { IfOk result (λ text.
        text.items ≡ constraint_name fault.now.number ++ codes " at " ++ fault_path_text fault.now.path.steps) }
{
    let zeros = match fault.number {
        0..10 => "00",
        10..100 => "0",
        _ => "",
    };
    let mut text = join_words(alloc, "AASd-", zeros)?;
    text.extend_from_slice(Buffer::new().format(fault.number).as_bytes())?;
    text.extend_from_slice(b" at ")?;
    print_fault_path(&fault.path, &mut text)?;
    Ok(text)
}
