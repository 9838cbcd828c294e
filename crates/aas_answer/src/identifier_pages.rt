// The bodies of replies to questions about pages of identifiers.
ghost use Rattle.std.specs.Prelude.{◌≡◌, ◌⊎◌, Ok, Err, IfOk, option_map};
ghost use Rattle.std.specs.Str.{encode_utf8_all};
ghost use Rattle.aas_command.specs.declared.refusal.Refusal.TheVariants as refused;
ghost use Rattle.aas_discovery.specs.Carriers.{lookup_page};
ghost use Rattle.aas_page.specs.Pages.{shown};
ghost use Rattle.aas_answer.specs.Answers.{ids_page};

use crate::page_text::{after, document_cursor, end_page, pour_begin, pour_listed};
use aas_command::Refusal;
use aas_discovery::Lookup;
use aas_json_write_members::Texts;
use aas_model::{Many, NoMemory, SpecificAssetId, Text};
use aas_out::{Pouring, TextOut};
use aas_page::Page;
use std::alloc::Global;

/// The page of the identifiers of the shells that have each of the wanted specific asset ids.
pub(crate) fn lookup_answer<S: Lookup>(
    alloc: Global,
    store: &S,
    wanted: &Many<SpecificAssetId>,
    behind: &Option<Text>,
    limit: u32,
) -> Result<Many<u8>, Refusal>
    ensures { (result ≡ Err refused.NoMemory)
        ⊎ (result
        ≡ ids_page (lookup_page wanted.now (option_map encode_utf8_all behind.now) limit (S.documents store.now))) }
{
    let page = store.lookup(wanted, after(behind), limit)?;
    Ok(ids_told(alloc, &page)?)
}

/// The text of a page of identifiers.
fn ids_told(alloc: Global, page: &Page) -> Result<Many<u8>, NoMemory>
    ensures { IfOk result (λ text. ids_page (shown page.now) ≡ Ok text) }
{
    let cursor = document_cursor(alloc, page)?;
    let mut out = TextOut::new(alloc);
    let begun = pour_begin(Pouring::Going, &cursor, &mut out);
    let told = pour_listed::<Texts, TextOut>(begun, page.ids.as_slice(), &mut out);
    end_page(told, out)
}
