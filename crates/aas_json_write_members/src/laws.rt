ghost use Rattle.aas_json_write_members.specs.Heads.{ShownSubmodelsHaveTheCanonicalText, SubmodelsHaveTheCanonicalText};
ghost use Rattle.aas_json_write_members.specs.Texts.{RowsGiveTheCanonicalText, TreesHaveTheCanonicalText};

/// The text of an element, member by member and child by child, is the canonical text of what the mapping spells.
pub fn rows_give_the_canonical_text()
    ensures { RowsGiveTheCanonicalText }
{}

/// The text of a tree of elements is the canonical text of what is shown of it.
pub fn trees_have_the_canonical_text()
    ensures { TreesHaveTheCanonicalText }
{}

/// The text of a submodel is the canonical text where those of its elements are.
pub fn submodels_have_the_canonical_text()
    ensures { SubmodelsHaveTheCanonicalText }
{}

/// The text of a submodel with what is shown of its elements is the canonical text of what is shown of it.
pub fn shown_submodels_have_the_canonical_text()
    ensures { ShownSubmodelsHaveTheCanonicalText }
{}
