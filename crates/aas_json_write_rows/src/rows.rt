// A list of rows that is read by rank.
ghost use Rattle.std.specs.Prelude.{◌≡◌, ◌<◌, ◌^◌, List, length, slice_get, option_map};
ghost use Rattle.aas_rows.specs.Rows.{Line};
ghost use Rattle.aas_rows.specs.Views.{line_of};

use aas_rows::RowView;

/// A list of rows.
pub trait Rows {
    ghost lines: { Self → List Line };

    /// The row of this rank, or `None` past the end.
    fn row(&self, rank: u64) -> Option<RowView<'_>>
        ensures row { option_map line_of result ≡ slice_get (lines self.now) rank }
        ensures short { length (lines self.now) < 2 ^ 64 };
}
