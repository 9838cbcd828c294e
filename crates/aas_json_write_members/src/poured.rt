ghost use Rattle.std.specs.Prelude.{◌≡◌, false, map};
ghost use Rattle.serde_json.specs.Data.{Data, no_items};
ghost use Rattle.serde_json.specs.Written.{comma_if, compact_text, items_text};
ghost use Rattle.aas_json_table.specs.Spelled.{onto, text_of};
ghost use Rattle.aas_out.specs.Adds.{Adds};

use crate::quoted::add_quoted;
use aas_model::Text;
use aas_out::{Pouring, TextEnd, add_text};

/// A sort of things that are each put as one JSON value.
pub trait Poured {
    /// What is put.
    type Tree;

    ghost spell: { Self.Tree → Data };

    /// Puts the text of `tree`.
    fn pour<O: TextEnd>(so_far: Pouring, tree: &Self::Tree, out: &mut O) -> Pouring
        ensures { Adds so_far result (O.told out.old) (O.told out.new) (compact_text (spell tree.now)) };
}

/// Texts, each put as a string.
pub struct Texts;

impl Poured for Texts {
    type Tree = Text;

    ghost spell = { text_of };

    fn pour<O: TextEnd>(so_far: Pouring, text: &Text, out: &mut O) -> Pouring {
        add_quoted(so_far, text.as_str(), out)
    }
}

/// A comma, where something stands before.
pub fn comma_of(later: bool) -> &'static str
    ensures { result.now ≡ comma_if later }
{
    if later { "," } else { "" }
}

/// Puts the items of an array, with the bracket behind them.
pub(crate) fn pour_items<P: Poured, O: TextEnd>(
    so_far: Pouring,
    trees: &[P::Tree],
    out: &mut O,
) -> Pouring
    ensures { Adds so_far result (O.told out.old) (O.told out.new)
        (items_text false (onto (map P.spell trees.now) no_items)) }
{
    let mut state = so_far;
    let mut later = false;
    for tree in trees {
        let comma = add_text(state, comma_of(later), out);
        state = P::pour(comma, tree, out);
        later = true;
    }
    add_text(state, "]", out)
}
