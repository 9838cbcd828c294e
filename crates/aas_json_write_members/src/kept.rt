// Kept data, as it is.
ghost use Rattle.std.specs.Prelude.{false, map};
ghost use Rattle.serde_json.specs.Data.{no_items, no_members};
ghost use Rattle.serde_json.specs.Written.{compact_text, items_text, members_text};
ghost use Rattle.aas_json_members.specs.Kept.{pairs_onto};
ghost use Rattle.aas_json_spelling.specs.Kept.{spell_plain};
ghost use Rattle.aas_json_table.specs.Spelled.{onto};
ghost use Rattle.aas_out.specs.Adds.{Adds};

use crate::members::Pen;
use crate::pen::{add_any_name, add_flag, end_object};
use crate::poured::{Poured, comma_of};
use crate::quoted::add_quoted;
use aas_model::{Many, Plain, PlainPair};
use aas_out::{Pouring, TextEnd, add_text};

/// Kept data: any JSON value without numbers.
pub(crate) struct Plains;

impl Poured for Plains {
    type Tree = Plain;

    ghost spell = { spell_plain };

    fn pour<O: TextEnd>(so_far: Pouring, plain: &Plain, out: &mut O) -> Pouring {
        pour_plain(so_far, plain, out)
    }
}

#[cycle(plain)]
fn pour_plain<O: TextEnd>(so_far: Pouring, plain: &Plain, out: &mut O) -> Pouring
    ensures { Adds so_far result (O.told out.old) (O.told out.new) (compact_text (spell_plain plain.now)) }
{
    match plain {
        Plain::Null => add_text(so_far, "null", out),
        Plain::Bool(flag) => add_flag(so_far, *flag, out),
        Plain::Str(text) => add_quoted(so_far, text.as_str(), out),
        Plain::List(items) => {
            let opened = add_text(so_far, "[", out);
            pour_plains(opened, items, out)
        },
        Plain::Map(pairs) => {
            let opened = add_text(so_far, "{", out);
            pour_pairs(opened, pairs, out)
        },
    }
}

/// Puts the items of a list, with the bracket behind them.
#[cycle(plain)]
fn pour_plains<O: TextEnd>(so_far: Pouring, plains: &Many<Plain>, out: &mut O) -> Pouring
    ensures { Adds so_far result (O.told out.old) (O.told out.new)
        (items_text false (onto (map spell_plain plains.now) no_items)) }
{
    let mut state = so_far;
    let mut later = false;
    for plain in plains.as_slice() {
        let comma = add_text(state, comma_of(later), out);
        state = pour_plain(comma, plain, out);
        later = true;
    }
    add_text(state, "]", out)
}

/// Puts the pairs of a map, with the brace behind them.
#[cycle(plain)]
fn pour_pairs<O: TextEnd>(so_far: Pouring, pairs: &Many<PlainPair>, out: &mut O) -> Pouring
    ensures { Adds so_far result (O.told out.old) (O.told out.new)
        (members_text false (pairs_onto pairs.now no_members)) }
{
    let mut pen = Pen {
        state: so_far,
        later: false,
    };
    for pair in pairs.as_slice() {
        let named = add_any_name(pen, pair.name.as_str(), out);
        pen = Pen {
            state: pour_plain(named, &pair.value, out),
            later: true,
        };
    }
    end_object(pen, out)
}
