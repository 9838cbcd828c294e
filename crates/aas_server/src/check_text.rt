// The text of the command `check`.
ghost use Rattle.std.specs.Prelude.{◌≡◌, ◌++◌, OnOk, IfOk};
ghost use Rattle.aas_server.specs.CheckText.{check_text, dangling_line, dangling_text, total_line};

use aas_model::NoMemory;
use aas_path::print_fault_path;
use aas_resolve::dangling;
use aas_resolve::report::Dangling;
use aas_store::Store;
use itoa::Buffer;
use std::alloc::Global;

/// A line for each reference of the documents that leads nowhere, and how many there are.
pub(crate) fn check_text<S: Store>(alloc: Global, store: &S) -> Result<Vec<u8>, NoMemory>
    ensures { IfOk result (λ text. text.items ≡ check_text (S.documents store.now)) }
{
    dangling_text(alloc, dangling(alloc, store)?.as_slice())
}

fn dangling_text(alloc: Global, found: &[Dangling]) -> Result<Vec<u8>, NoMemory>
    ensures { IfOk result (λ text. text.items ≡ dangling_text found.now) }
{
    let mut text = Vec::new(alloc);
    for reference in found {
        append_line(reference, &mut text)?;
    }
    append_total(found.len(), &mut text)?;
    Ok(text)
}

fn append_line(reference: &Dangling, text: &mut Vec<u8>) -> Result<(), NoMemory>
    ensures { OnOk result (text.new.items ≡ text.old.items ++ dangling_line reference.now) }
{
    text.extend_from_slice(b"dangling ")?;
    text.extend_from_slice(reference.collection.name().as_bytes())?;
    text.extend_from_slice(b" ")?;
    text.extend_from_slice(reference.id.as_str().as_bytes())?;
    text.extend_from_slice(b" at ")?;
    print_fault_path(&reference.path, text)?;
    text.extend_from_slice(b" key ")?;
    text.extend_from_slice(Buffer::new().format(reference.key).as_bytes())?;
    text.extend_from_slice(b"\n")?;
    Ok(())
}

fn append_total(count: usize, text: &mut Vec<u8>) -> Result<(), NoMemory>
    ensures { OnOk result (text.new.items ≡ text.old.items ++ total_line count) }
{
    text.extend_from_slice(b"total ")?;
    text.extend_from_slice(Buffer::new().format(count).as_bytes())?;
    text.extend_from_slice(b"\n")?;
    Ok(())
}
