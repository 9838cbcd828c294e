// The texts of pages, but for entries that are told by a store.
ghost use Rattle.std.specs.Prelude.{◌≡◌, ◌+◌, ◌++◌, None, Some, codes, decimal, map, min, nat_lt, option_map};
ghost use Rattle.std.specs.Prelude.{if◌then◌else◌, IfOk};
ghost use Rattle.std.specs.List.{join_by, last_or};
ghost use Rattle.std.specs.Option.{option_copied};
ghost use Rattle.std.specs.Str.{encode_utf8_all};
ghost use Rattle.base64.specs.Engines.{url_safe_no_pad};
ghost use Rattle.base64.specs.GeneralPurpose.{encode_of};
ghost use Rattle.serde_json.specs.Written.{compact_text};
ghost use Rattle.aas_out.specs.Adds.{Adds};
ghost use Rattle.aas_out.specs.declared.pouring.Pouring.TheVariants.{Going};
ghost use Rattle.aas_answer.specs.Answers.{cursor_text, page_begin};

use aas_json_write_members::{Poured, comma_of};
use aas_model::{Many, NoMemory, Text};
use aas_out::{Out, Pouring, TextOut, add, add_text};
use aas_page::{Page, Span, id_to_segment};
use itoa::Buffer;
use std::alloc::Global;

/// The identifier behind which a page begins.
pub(crate) fn after(id: &Option<Text>) -> Option<&str>
    ensures { option_copied result ≡ option_map encode_utf8_all id.now }
{
    match id {
        Some(id) => Some(id.as_str()),
        None => None,
    }
}

/// The cursor of the page behind this one, if a further document follows.
pub(crate) fn document_cursor(alloc: Global, page: &Page) -> Result<Option<Many<u8>>, NoMemory>
    ensures { IfOk result (λ cursor. cursor
        ≡ (if page.now.more
        then option_map (encode_of url_safe_no_pad) (last_or None (map encode_utf8_all page.now.ids))
        else None)) }
{
    if !page.more {
        return Ok(None);
    }
    let Some(last) = page.ids.as_slice().last() else {
        return Ok(None);
    };
    let mut cursor = Vec::new(alloc);
    id_to_segment(last.as_str(), &mut cursor)?;
    Ok(Some(Many::from(cursor)))
}

/// The place behind the last entry of a page of so many entries in all.
pub(crate) fn end_of(span: Span, count: u64) -> u64
    ensures { result ≡ min (span.from + span.limit) count }
{
    span.from.saturating_add(u64::from(span.limit)).min(count)
}

/// The cursor of the page behind one that ends before `end`, if a further one of so many entries follows.
pub(crate) fn place_cursor(
    alloc: Global,
    end: u64,
    count: u64,
) -> Result<Option<Many<u8>>, NoMemory>
    ensures { IfOk result (λ cursor. cursor ≡ (if nat_lt end count then Some (decimal end) else None)) }
{
    if end >= count {
        return Ok(None);
    }
    let cursor = Vec::from_slice(alloc, Buffer::new().format(end).as_bytes())?;
    Ok(Some(Many::from(cursor)))
}

/// Puts the text of a page up to its first entry, with the cursor of the page behind it.
pub(crate) fn pour_begin<O: Out>(so_far: Pouring, cursor: &Option<Many<u8>>, out: &mut O) -> Pouring
    ensures { Adds so_far result (O.told out.old) (O.told out.new) (page_begin cursor.now) }
{
    let named = add_text(so_far, "{\"paging_metadata\":", out);
    let paged = pour_cursor(named, cursor, out);
    add_text(paged, ",\"result\":[", out)
}

fn pour_cursor<O: Out>(so_far: Pouring, cursor: &Option<Many<u8>>, out: &mut O) -> Pouring
    ensures { Adds so_far result (O.told out.old) (O.told out.new) (cursor_text cursor.now) }
{
    match cursor {
        None => add_text(so_far, "{}", out),
        Some(cursor) => {
            let named = add_text(so_far, "{\"cursor\":\"", out);
            let told = add(named, cursor.as_slice(), out);
            add_text(told, "\"}", out)
        }
    }
}

/// Puts what a page lists, with commas between.
pub(crate) fn pour_listed<P: Poured, O: Out>(
    so_far: Pouring,
    trees: &[P::Tree],
    out: &mut O,
) -> Pouring
    ensures { Adds so_far result (O.told out.old) (O.told out.new)
        (join_by (λ tree. compact_text (P.spell tree)) (codes ",") trees.now) }
{
    let mut state = so_far;
    for (place, tree) in trees.iter().enumerate() {
        let comma = add_text(state, comma_of(place > 0), out);
        state = P::pour(comma, tree, out);
    }
    state
}

/// The text of a page in memory, whose entries were put.
pub(crate) fn end_page(told: Pouring, mut out: TextOut) -> Result<Many<u8>, NoMemory>
    ensures { IfOk result (λ page. (told ≡ Going) × (page ≡ out.text.items ++ codes "]}")) }
{
    let ended = add_text(told, "]}", &mut out);
    text_of(ended, out)
}

/// The text that was poured into memory, if none was refused.
pub(crate) fn text_of(state: Pouring, out: TextOut) -> Result<Many<u8>, NoMemory>
    ensures { IfOk result (λ text. (state ≡ Going) × (text ≡ out.text.items)) }
{
    match state {
        Pouring::Going => Ok(Many::from(out.into_text())),
        Pouring::Stopped => Err(NoMemory),
    }
}
