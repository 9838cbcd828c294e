// What puts the members of an element that are no children.
ghost use Rattle.std.specs.Prelude.{◌≡◌};
ghost use Rattle.aas_out.specs.Adds.{Adds};
ghost use Rattle.aas_rows.specs.Views.{line_of};
ghost use Rattle.aas_json_write_members.specs.Members.{fields_text, later_after, part};

use crate::stops::Stop;
use aas_out::{Pouring, TextEnd};
use aas_rows::RowView;

/// What is shown: the children of elements above the level `cut` alone, and Blobs with or without their values.
#[derive(Clone, Copy)]
pub struct Show {
    pub cut: u64,
    pub blobs: bool,
}

/// How a pouring stands, and whether a member stands before what follows.
#[derive(Clone, Copy)]
pub struct Pen {
    pub state: Pouring,
    pub later: bool,
}

/// What puts the members of an element that are no children.
pub trait Members {
    /// Puts the members of a row's element in the part before the stop `next`, or in the part behind all stops. A
    /// member stands before them if `later` says so.
    fn put_part<O: TextEnd>(
        &self,
        so_far: Pouring,
        show: Show,
        row: &RowView<'_>,
        next: Option<Stop>,
        later: bool,
        out: &mut O,
    ) -> Pen
        ensures text { Adds so_far result.state (O.told out.old)
            (O.told out.new) (fields_text later (part show (line_of row.now) next)) }
        ensures later { result.later ≡ later_after later (part show (line_of row.now) next) };
}
