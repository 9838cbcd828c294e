use crate::changes::{Work, answer_work, patch_document, print_parsed};
use crate::document::{read_at_level, write_document};
use crate::faults::fault_of;
use crate::forms::form_of;
use crate::modifiers::{Modifier, form_text, paths_at, reference_at};
use crate::parts::{part_of, sameness};
use crate::poured::pour_document;
use crate::text::{text, text_of};
use aas_command::Refusal;
use aas_model::{
    AssetInformation, Concept, Element, Environment, Extent, NoMemory, Reference, Shell,
    SpecificAssetId, Submodel,
};
use std::alloc::Global;

/// What a call gives for an input, or the text of its refusal.
pub(crate) fn answer(alloc: Global, call: &str, input: &str) -> Result<String, NoMemory> {
    match answer_call(alloc, call, input) {
        Ok(given) => Ok(given),
        Err(Refusal::NoMemory) => Err(NoMemory),
        Err(refusal) => text_of(alloc, refusal.text(alloc)?),
    }
}

fn answer_call(alloc: Global, call: &str, input: &str) -> Result<String, Refusal> {
    match call {
        "fault of element" => fault_of::<Element>(alloc, input),
        "fault of submodel" => fault_of::<Submodel>(alloc, input),
        "fault of shell" => fault_of::<Shell>(alloc, input),
        "fault of concept" => fault_of::<Concept>(alloc, input),
        "write shell" => write_document::<Shell>(alloc, input),
        "write submodel" => write_document::<Submodel>(alloc, input),
        "write concept" => write_document::<Concept>(alloc, input),
        "write environment" => write_document::<Environment>(alloc, input),
        "write element" => write_document::<Element>(alloc, input),
        "write asset" => write_document::<AssetInformation>(alloc, input),
        "write reference" => part_of::<Reference>(alloc, input),
        "pour shell" => pour_document::<Shell>(alloc, input),
        "pour concept" => pour_document::<Concept>(alloc, input),
        "pour element" => pour_document::<Element>(alloc, input),
        "same references" => sameness(alloc, input),
        "name of specific" => part_of::<SpecificAssetId>(alloc, input),
        "value" => form_of::<Element>(alloc, input, Extent::WithBlobValue),
        "value without blobs" => form_of::<Element>(alloc, input, Extent::WithoutBlobValue),
        "value of submodel" => form_of::<Submodel>(alloc, input, Extent::WithBlobValue),
        _ => answer_modifier(alloc, call, input),
    }
}

/// The same of the calls of modifiers.
fn answer_modifier(alloc: Global, call: &str, input: &str) -> Result<String, Refusal> {
    match call {
        "metadata" => form_text::<Element>(alloc, Modifier::Metadata, input),
        "core" => form_text::<Element>(alloc, Modifier::Core, input),
        "without blobs" => form_text::<Element>(alloc, Modifier::WithoutBlobs, input),
        "metadata of submodel" => form_text::<Submodel>(alloc, Modifier::Metadata, input),
        "core of submodel" => form_text::<Submodel>(alloc, Modifier::Core, input),
        "submodel without blobs" => form_text::<Submodel>(alloc, Modifier::WithoutBlobs, input),
        _ => called_at(alloc, call, input),
    }
}

/// The same of the calls that have a level, a path or a rank before what they are called with.
fn called_at(alloc: Global, call: &str, input: &str) -> Result<String, Refusal> {
    let (place, json) = input.split_once('\t').unwrap_or((input, ""));
    match call {
        "read element" => read_at_level(alloc, place, json),
        "path" => print_parsed(alloc, place),
        "reference" => reference_at(alloc, place, json),
        "paths" => paths_at(alloc, place, json),
        "find" => answer_work(alloc, Work::Find, place, json),
        "insert" => answer_work(alloc, Work::Insert, place, json),
        "replace" => answer_work(alloc, Work::Replace, place, json),
        "remove" => answer_work(alloc, Work::Remove, place, json),
        "lend" => answer_work(alloc, Work::Lend, place, json),
        "patch" => patch_document::<Submodel>(alloc, rank_of(place), json),
        "patch below" => patch_document::<Element>(alloc, rank_of(place), json),
        _ => of_texts(alloc, call, input),
    }
}

fn of_texts(alloc: Global, call: &str, input: &str) -> Result<String, Refusal> {
    match aas_examples_texts::answer(alloc, call, input)? {
        Some(given) => Ok(given),
        None => Ok(text(alloc, "no such call")?),
    }
}

fn rank_of(digits: &str) -> u64 {
    digits.parse().unwrap_or(u64::MAX)
}
