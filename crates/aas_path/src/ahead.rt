ghost use Rattle.std.specs.Prelude.{◌≡◌, drop};
ghost use Rattle.aas_path.specs.Gaps.{gap, rises};
ghost use Rattle.aas_path.specs.Walk.{left_of, at_start};

use aas_model::PatchRow;

/// How far a walk in preorder is from the next row of a patch.
#[derive(Clone, Copy)]
pub(crate) struct Ahead {
    /// The place of that row among the rows.
    pub(crate) row: usize,
    /// How many elements come before that of the row.
    pub(crate) distance: u64,
}

/// At the element of rank 0.
pub(crate) fn at_start(rows: &[PatchRow]) -> Ahead
    ensures { left_of rows.now result ≡ at_start rows.now }
{
    let distance = match rows {
        [first, ..] => first.rank,
        [] => 0,
    };
    Ahead { row: 0, distance }
}

/// How many elements come behind that of a rank, before that of the first of the rows behind it.
pub(crate) fn gap(rank: u64, behind: &[PatchRow]) -> u64
    ensures { result ≡ gap rank behind.now }
{
    match behind {
        [next, ..] => next.rank.saturating_sub(rank).saturating_sub(1),
        [] => 0,
    }
}

/// Whether the rows behind one of a rank begin with a higher rank.
pub(crate) fn rises(rank: u64, behind: &[PatchRow]) -> bool
    ensures { result ≡ rises rank behind.now }
{
    match behind {
        [next, ..] => rank < next.rank,
        [] => true,
    }
}

/// The rows from a place on.
pub(crate) fn rows_from(rows: &[PatchRow], row: usize) -> &[PatchRow]
    ensures { result.now ≡ drop row rows.now }
{
    rows.get(row..).unwrap_or(&[])
}
