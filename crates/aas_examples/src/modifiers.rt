// What is shown of documents by serialization and content modifiers.
use crate::changes::missing;
use crate::document::Document;
use crate::text::text_of;
use aas_command::Refusal;
use aas_form::{
    FormFault, cut, cut_element, metadata, metadata_of, paths, reference_of, strip, strip_element,
};
use aas_model::{Element, Extent, Level, Many, NoMemory, Path, Reference, Submodel};
use aas_path::{parse_path, print_path};
use aas_reference::write_reference;
use std::alloc::Global;

/// How much is shown.
#[derive(Clone, Copy)]
pub(crate) enum Modifier {
    Metadata,
    Core,
    WithoutBlobs,
}

/// What has forms that are written as it is written itself.
pub(crate) trait Formed: Document {
    fn metadata(&self, alloc: Global) -> Result<Self, NoMemory>;

    fn core(self) -> Self;

    fn without_blobs(self) -> Self;
}

impl Formed for Element {
    fn metadata(&self, alloc: Global) -> Result<Element, NoMemory> {
        Ok(metadata(alloc, self)?)
    }

    fn core(self) -> Element {
        cut_element(self, Level::Core)
    }

    fn without_blobs(self) -> Element {
        strip_element(self, Extent::WithoutBlobValue)
    }
}

impl Formed for Submodel {
    fn metadata(&self, alloc: Global) -> Result<Submodel, NoMemory> {
        Ok(metadata_of(alloc, self)?)
    }

    fn core(self) -> Submodel {
        cut(self, Level::Core)
    }

    fn without_blobs(self) -> Submodel {
        strip(self, Extent::WithoutBlobValue)
    }
}

/// What is shown of the document in a JSON text.
pub(crate) fn form_text<D: Formed>(
    alloc: Global,
    modifier: Modifier,
    json: &str,
) -> Result<String, Refusal> {
    let document = D::read(alloc, json)?;
    match modifier {
        Modifier::Metadata => document_text(alloc, &document.metadata(alloc)?),
        Modifier::Core => document_text(alloc, &document.core()),
        Modifier::WithoutBlobs => document_text(alloc, &document.without_blobs()),
    }
}

fn document_text<D: Document>(alloc: Global, document: &D) -> Result<String, Refusal> {
    let mut out = Vec::new(alloc);
    document.write(alloc, &mut out)?;
    Ok(text_of(alloc, out)?)
}

/// What leads to a place in a submodel: the empty path for `$`.
fn path_of(alloc: Global, path: &str) -> Result<Path, Refusal> {
    if path == "$" {
        return Ok(Path {
            steps: Many::new(alloc),
        });
    }
    Ok(parse_path(alloc, path.as_bytes())?)
}

/// The reference to what a path leads to, as it is written.
pub(crate) fn reference_at(alloc: Global, path: &str, json: &str) -> Result<String, Refusal> {
    let path = path_of(alloc, path)?;
    reference_text_at(alloc, &Submodel::read(alloc, json)?, &path)
}

fn reference_text_at(alloc: Global, submodel: &Submodel, path: &Path) -> Result<String, Refusal> {
    match reference_of(alloc, submodel, path) {
        Ok(reference) => written_reference(alloc, &reference),
        Err(FormFault::Missing(lack)) => missing(alloc, &lack),
        Err(FormFault::NoMemory) => Err(Refusal::NoMemory),
    }
}

fn written_reference(alloc: Global, reference: &Reference) -> Result<String, Refusal> {
    let mut out = Vec::new(alloc);
    write_reference(alloc, reference, &mut out)?;
    Ok(text_of(alloc, out)?)
}

/// The paths from where a path leads, with blanks between them.
pub(crate) fn paths_at(alloc: Global, path: &str, json: &str) -> Result<String, Refusal> {
    let path = path_of(alloc, path)?;
    path_list(alloc, &Submodel::read(alloc, json)?, &path)
}

fn path_list(alloc: Global, submodel: &Submodel, path: &Path) -> Result<String, Refusal> {
    match paths(alloc, submodel, path) {
        Ok(paths) => Ok(join_paths(alloc, &paths)?),
        Err(FormFault::Missing(lack)) => missing(alloc, &lack),
        Err(FormFault::NoMemory) => Err(Refusal::NoMemory),
    }
}

fn join_paths(alloc: Global, paths: &Many<Path>) -> Result<String, NoMemory> {
    let mut out = Vec::new(alloc);
    for path in paths.as_slice() {
        if !out.is_empty() {
            out.extend_from_slice(b" ")?;
        }
        print_path(path, &mut out)?;
    }
    text_of(alloc, out)
}
