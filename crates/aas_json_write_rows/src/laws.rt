// What a text by rows is.
ghost use Rattle.aas_json_write_rows.specs.Poured.{RowsGiveTheTexts};
ghost use Rattle.aas_json_write_rows.specs.Submodels.{RowsGiveTheSubmodel};

/// The rows of trees give the texts of the trees.
pub fn rows_give_the_texts()
    ensures { RowsGiveTheTexts }
{}

/// A submodel's head and the rows of its elements give the canonical text of what is shown of it.
pub fn rows_give_the_submodel()
    ensures { RowsGiveTheSubmodel }
{}
