ghost use Rattle.std.specs.Prelude.{◌≡◌, None, codes, IfOk, MatchOption};
ghost use Rattle.serde_json.specs.View.{members_view};
ghost use Rattle.aas_json_table.specs.Canonical.{canonical_member};
ghost use Rattle.aas_json_table.specs.Table.{text};
ghost use Rattle.aas_json_read.specs.Found.{FindsCommon, FindsHead};

use aas_json_members::{kept_member, list_member, one_member, string_member};
use aas_json_parts::{Administrations, Extensions, LangTexts, Qualifiers, semantics_in};
use aas_json_table::name;
use aas_model::{Common, Head, NoMemory, both};
use serde_json::{Map, Value};
use std::alloc::Global;

/// The attributes that all elements have, among the members of an object.
pub(crate) fn common_in(alloc: Global, members: &Map<String, Value>) -> Result<Common, NoMemory>
    ensures { IfOk result (λ found. FindsCommon (canonical_member (members_view members.now.entries)) found) }
{
    let names = both(
        string_member(alloc, members, name::ID_SHORT),
        string_member(alloc, members, name::CATEGORY),
    );
    let texts = both(
        list_member::<LangTexts>(alloc, members, name::DESCRIPTION),
        list_member::<LangTexts>(alloc, members, name::DISPLAY_NAME),
    );
    let kept = both(
        list_member::<Extensions>(alloc, members, name::EXTENSIONS),
        kept_member(alloc, members, name::EMBEDDED_DATA_SPECIFICATIONS),
    );
    let meaning = both(
        semantics_in(alloc, members),
        list_member::<Qualifiers>(alloc, members, name::QUALIFIERS),
    );
    let ((names, texts), (kept, meaning)) = both(both(names, texts), both(kept, meaning))?;
    let (id_short, category) = names;
    let (description, display_name) = texts;
    let (extensions, embedded_data_specifications) = kept;
    let (semantics, qualifiers) = meaning;
    Ok(Common {
        id_short,
        category,
        description,
        display_name,
        extensions,
        embedded_data_specifications,
        semantics,
        qualifiers,
    })
}

/// The attributes that all documents have, among the members of an object, or `None` where it has no identifier.
pub(crate) fn head_in(alloc: Global, members: &Map<String, Value>) -> Result<Option<Head>, NoMemory>
    ensures { IfOk result (λ found. MatchOption found (canonical_member (members_view members.now.entries) (codes "id") text ≡ None) (FindsHead (canonical_member (members_view members.now.entries)))) }
{
    let Some(id) = string_member(alloc, members, name::ID)? else {
        return Ok(None);
    };
    Ok(Some(Head {
        id,
        administration: one_member::<Administrations>(alloc, members, name::ADMINISTRATION)?,
        id_short: string_member(alloc, members, name::ID_SHORT)?,
        category: string_member(alloc, members, name::CATEGORY)?,
        description: list_member::<LangTexts>(alloc, members, name::DESCRIPTION)?,
        display_name: list_member::<LangTexts>(alloc, members, name::DISPLAY_NAME)?,
        extensions: list_member::<Extensions>(alloc, members, name::EXTENSIONS)?,
        embedded_data_specifications: kept_member(
            alloc,
            members,
            name::EMBEDDED_DATA_SPECIFICATIONS,
        )?,
    }))
}
