ghost use Rattle.aas_sheet_rows.specs.Laws.{OthersStay};

/// What a loan of a row leaves has the old rows, but for the one of its rank.
pub fn others_stay()
    ensures { OthersStay }
{}
