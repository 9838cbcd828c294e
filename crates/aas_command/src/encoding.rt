// Commands as payloads.
ghost use Rattle.std.specs.Prelude.{◌≡◌, ◌++◌, [], ◌∷◌, IfOk, IfSome, MatchResult, OnOk};
ghost use Rattle.std.specs.Str.{IsUtf8};
ghost use Rattle.aas_command.specs.Commands.{IsCreatedText, IsPlace, IsWellFormed, bytes_of, created_text, field};
ghost use Rattle.aas_command.specs.Commands.{payload_of, tagged};
ghost use Rattle.aas_command.specs.declared.command.Command.TheVariants.{Import};
ghost use Rattle.aas_command.specs.Encoding.{HasFields, IsFaultOf, IsField, lent};
ghost use Rattle.aas_json_spelling.specs.Lists.{Each};
ghost use Rattle.aas_json_spelling.specs.Values.{HasWholeNumbers};
ghost use Rattle.aas_path.specs.PathText.{path_text};
ghost use Rattle.std.specs.Str.{encode_utf8_all};

use crate::Command;
use aas_json_write::{
    asset_text, concept_text, element_text, environment_text, reference_text, shell_text,
    submodel_text,
};
use aas_model::{Environment, Many, NoMemory, Path, Text};
use aas_outside::{Frame, FrameWriter};
use aas_path::print_path;
use std::alloc::Global;
use thiserror::Error;

/// Why a command has no frame.
#[derive(Debug, Drop, Error)]
pub enum EncodeFault {
    /// Its payload has 2^32 bytes or more.
    #[error("the payload is too long for a frame")]
    TooLong,
    #[error("memory was refused")]
    NoMemory,
}

impl From<NoMemory> for EncodeFault {
    ghost use Rattle.aas_command.specs.declared.encoding.EncodeFault.TheVariants as fault;

    ghost from_gives = { λ _ given. given ≡ fault.NoMemory };

    fn from(_: NoMemory) -> EncodeFault {
        EncodeFault::NoMemory
    }
}

/// The canonical text of the document, the reference or the element that a command creates; `None` where it creates
/// none.
pub fn created_text(alloc: Global, command: &Command) -> Result<Option<Many<u8>>, NoMemory>
    ensures text { IfOk result (λ text. text ≡ created_text command.now) }
    ensures utf8 { IfOk result (λ text. IfSome text IsUtf8) }
{
    let text = match command {
        Command::CreateShell { document } => shell_text(alloc, document.get())?,
        Command::CreateSubmodel { document } => submodel_text(alloc, document.get())?,
        Command::CreateConcept { document } => concept_text(alloc, document.get())?,
        Command::AddReference { reference, .. } => reference_text(alloc, reference)?,
        Command::InsertElement { element, .. } => element_text(alloc, element.get())?,
        _ => return Ok(None),
    };
    Ok(Some(text.into()))
}

/// The frame of a command's payload. The command is well formed.
pub fn encode(alloc: Global, command: &Command) -> Result<Frame, EncodeFault>
    requires { IsWellFormed command.now }
    ensures payload { MatchResult result
        (λ frame. frame ≡ payload_of command.now)
        (IsFaultOf (payload_of command.now)) }
    ensures fields { OnOk result (HasFields command.now) }
{
    match created_text(alloc, command)? {
        Some(text) => encode_with_text(alloc, command, text.as_slice()),
        None => encode_with_text(alloc, command, &[]),
    }
}

/// The frame of a command's payload, as [`encode`] makes it. The text of what the command creates is at hand
/// ([`created_text`]), and stands in the frame as it is; where it creates nothing, the text may be any.
#[tactic(auto, unfolding(crate::specs::Commands::IsWellFormed, crate::specs::Commands::payload_of, crate::specs::Encoding::HasFields))]
pub fn encode_with_text(alloc: Global, command: &Command, text: &[u8]) -> Result<Frame, EncodeFault>
    requires well_formed { IsWellFormed command.now }
    requires text { IsCreatedText command.now text.now }
    ensures payload { MatchResult result
        (λ frame. frame ≡ payload_of command.now)
        (IsFaultOf (payload_of command.now)) }
    ensures fields { OnOk result (HasFields command.now) }
{
    match command {
        Command::CreateShell { .. } => one_field(alloc, 1, text),
        Command::CreateSubmodel { .. } => one_field(alloc, 2, text),
        Command::CreateConcept { .. } => one_field(alloc, 3, text),
        Command::ReplaceShell { document } => one_field(
            alloc,
            4,
            &shell_text(alloc, document.get())?,
        ),
        Command::ReplaceSubmodel { document } => {
            one_field(alloc, 5, &submodel_text(alloc, document.get())?)
        }
        Command::ReplaceConcept { document } => {
            one_field(alloc, 6, &concept_text(alloc, document.get())?)
        }
        Command::DeleteShell { id } => one_field(alloc, 7, id.as_str().as_bytes()),
        Command::DeleteSubmodel { id } => one_field(alloc, 8, id.as_str().as_bytes()),
        Command::DeleteConcept { id } => one_field(alloc, 9, id.as_str().as_bytes()),
        Command::SetAsset { shell, asset } => two_fields(
            alloc,
            10,
            shell.as_str().as_bytes(),
            &asset_text(alloc, asset.get())?,
        ),
        Command::AddReference { shell, .. } => two_fields(
            alloc,
            11,
            shell.as_str().as_bytes(),
            text,
        ),
        Command::DropReference { shell, submodel } => two_fields(
            alloc,
            12,
            shell.as_str().as_bytes(),
            submodel.as_str().as_bytes(),
        ),
        Command::InsertElement { submodel, path, .. } => {
            place_and_text(alloc, 13, submodel, path, text)
        }
        Command::ReplaceElement {
            submodel,
            path,
            element,
        } => place_and_text(
            alloc,
            14,
            submodel,
            path,
            &element_text(alloc, element.get())?,
        ),
        Command::DeleteElement { submodel, path } => place(alloc, 15, submodel, path),
        Command::UpdateValue {
            submodel,
            path,
            value,
        } => place_and_text(alloc, 16, submodel, path, &value.text(alloc)?),
        Command::Import { environment } => encode_import(alloc, environment),
    }
}

/// The frame of the payload of the import of an environment.
#[tactic(auto, unfolding(crate::specs::Commands::payload_of, crate::specs::Encoding::HasFields))]
pub fn encode_import(alloc: Global, environment: &Environment) -> Result<Frame, EncodeFault>
    ensures payload { MatchResult result
        (λ frame. frame ≡ payload_of (Import environment.now))
        (IsFaultOf (payload_of (Import environment.now))) }
    ensures fields { OnOk result (HasFields (Import environment.now)) }
{
    encode_import_text(alloc, &environment_text(alloc, environment)?)
}

/// The frame of the payload of an import, of which the environment's canonical text is at hand.
pub fn encode_import_text(alloc: Global, text: &[u8]) -> Result<Frame, EncodeFault>
    requires { IsUtf8 text.now }
    ensures payload { MatchResult result
        (λ frame. frame ≡ bytes_of (tagged 17 (text.now ∷ [])))
        (IsFaultOf (bytes_of (tagged 17 (text.now ∷ [])))) }
    ensures field { OnOk result (IsField text.now) }
{
    one_field(alloc, 17, text)
}

/// The frame of a tag, a submodel, the path of a place in it and the text of what is done there.
fn place_and_text(
    alloc: Global,
    tag: u8,
    submodel: &Text,
    path: &Path,
    text: &[u8],
) -> Result<Frame, EncodeFault>
    requires place { IsPlace path.now.steps }
    requires utf8 { IsUtf8 text.now }
    ensures payload { MatchResult result
        (λ frame. frame ≡ bytes_of (tagged tag
        (encode_utf8_all submodel.now ∷ path_text path.now.steps ∷ text.now ∷ [])))
        (IsFaultOf (bytes_of (tagged tag
        (encode_utf8_all submodel.now ∷ path_text path.now.steps ∷ text.now ∷ [])))) }
    ensures fields { OnOk result (IsField (encode_utf8_all submodel.now) × IsField (path_text path.now.steps)
        × IsField text.now) }
{
    let path = path_bytes(alloc, path)?;
    fields(alloc, tag, &[submodel.as_str().as_bytes(), &path, text])
}

/// The frame of a tag, a submodel and the path of a place in it.
fn place(alloc: Global, tag: u8, submodel: &Text, path: &Path) -> Result<Frame, EncodeFault>
    requires { IsPlace path.now.steps }
    ensures payload { MatchResult result
        (λ frame. frame ≡ bytes_of (tagged tag (encode_utf8_all submodel.now ∷ path_text path.now.steps ∷ [])))
        (IsFaultOf (bytes_of (tagged tag (encode_utf8_all submodel.now ∷ path_text path.now.steps ∷ [])))) }
    ensures fields { OnOk result (IsField (encode_utf8_all submodel.now) × IsField (path_text path.now.steps)) }
{
    two_fields(
        alloc,
        tag,
        submodel.as_str().as_bytes(),
        &path_bytes(alloc, path)?,
    )
}

/// The text of a path, which can be written.
#[tactic(auto, using(crate::proofs::PathTexts::path_text_utf8))]
fn path_bytes(alloc: Global, path: &Path) -> Result<Vec<u8>, NoMemory>
    requires { IsPlace path.now.steps }
    ensures text { IfOk result (λ text. text.items ≡ path_text path.now.steps) }
    ensures utf8 { IfOk result (λ text. IsUtf8 text.items) }
{
    let mut text = Vec::new(alloc);
    print_path(path, &mut text)?;
    Ok(text)
}

/// The frame of a tag and one field, whose content is UTF-8.
fn one_field(alloc: Global, tag: u8, content: &[u8]) -> Result<Frame, EncodeFault>
    requires { IsUtf8 content.now }
    ensures payload { MatchResult result
        (λ frame. frame ≡ bytes_of (tagged tag (content.now ∷ [])))
        (IsFaultOf (bytes_of (tagged tag (content.now ∷ [])))) }
    ensures field { OnOk result (IsField content.now) }
{
    fields(alloc, tag, &[content])
}

/// The frame of a tag and two fields, whose contents are UTF-8.
fn two_fields(alloc: Global, tag: u8, first: &[u8], second: &[u8]) -> Result<Frame, EncodeFault>
    requires first { IsUtf8 first.now }
    requires second { IsUtf8 second.now }
    ensures payload { MatchResult result
        (λ frame. frame ≡ bytes_of (tagged tag (first.now ∷ second.now ∷ [])))
        (IsFaultOf (bytes_of (tagged tag (first.now ∷ second.now ∷ [])))) }
    ensures fields { OnOk result (IsField first.now × IsField second.now) }
{
    fields(alloc, tag, &[first, second])
}

/// The frame of a tag and fields, whose contents are UTF-8. Its room is taken at once.
#[tactic(auto, using(crate::proofs::Payloads::utf8_at, crate::proofs::Payloads::too_long_at))]
fn fields(alloc: Global, tag: u8, contents: &[&[u8]]) -> Result<Frame, EncodeFault>
    requires { Each IsUtf8 (lent contents.now) }
    ensures payload { MatchResult result
        (λ frame. frame ≡ bytes_of (tagged tag (lent contents.now)))
        (IsFaultOf (bytes_of (tagged tag (lent contents.now)))) }
    ensures fields { OnOk result (Each IsField (lent contents.now)) }
{
    let mut frame = FrameWriter::new(alloc, room(contents))?;
    frame.write(&[tag])?;
    for content in contents {
        write_field(&mut frame, content)?;
    }
    if frame.len() > u32::MAX as u64 {
        return Err(EncodeFault::TooLong);
    }
    Ok(frame.finish()?)
}

/// How many bytes a tag and fields take.
fn room(contents: &[&[u8]]) -> usize {
    contents.iter().fold(1usize, |sum, content| sum.saturating_add(4 + content.len()))
}

/// Writes a field, whose content is UTF-8, behind the payload so far.
fn write_field(frame: &mut FrameWriter, content: &[u8]) -> Result<(), EncodeFault>
    requires { IsUtf8 content.now }
    ensures payload { MatchResult result
        (λ _. frame.new ≡ frame.old ++ field content.now)
        (IsFaultOf content.now) }
    ensures field { OnOk result (IsField content.now) }
{
    if content.len() as u64 > u32::MAX as u64 {
        return Err(EncodeFault::TooLong);
    }
    let size = content.len() as u32;
    frame.write(&size.to_be_bytes())?;
    frame.write(content)?;
    Ok(())
}
