// References and their keys.
ghost use Rattle.std.specs.Prelude.{◌∷◌, [], codes, option_map};
ghost use Rattle.serde_json.specs.Written.{compact_text};
ghost use Rattle.aas_json_write_members.specs.Puts.{PutsFields};
ghost use Rattle.aas_out.specs.Adds.{Adds};
ghost use Rattle.aas_reference.specs.Spelling.{spell_key, spell_reference};

use crate::key;
use crate::members::Pen;
use crate::pen::{add_key, begin_object, end_object, put_list, put_one, put_word};
use crate::poured::{Poured, Texts};
use aas_model::{Boxed, Key, Reference};
use aas_out::{Pouring, TextEnd};
use aas_reference::{Keys, References};

impl Poured for Keys {
    type Tree = Key;

    ghost spell = { spell_key };

    fn pour<O: TextEnd>(so_far: Pouring, key: &Key, out: &mut O) -> Pouring {
        let begun = begin_object(so_far, out);
        let typed = put_word(begun, key::TYPE, key.key_type, out);
        let valued = put_one::<Texts, O>(typed, key::VALUE, &key.value, out);
        end_object(valued, out)
    }
}

impl Poured for References {
    type Tree = Reference;

    ghost spell = { spell_reference };

    fn pour<O: TextEnd>(so_far: Pouring, reference: &Reference, out: &mut O) -> Pouring {
        pour_reference(so_far, reference, out)
    }
}

#[cycle(reference)]
fn pour_reference<O: TextEnd>(so_far: Pouring, reference: &Reference, out: &mut O) -> Pouring
    ensures { Adds so_far result (O.told out.old) (O.told out.new) (compact_text (spell_reference reference.now)) }
{
    let begun = begin_object(so_far, out);
    let keyed = put_list::<Keys, O>(begun, key::KEYS, &reference.keys, out);
    let referring = put_referred(keyed, &reference.referred, out);
    let typed = put_word(referring, key::TYPE, reference.ref_type, out);
    end_object(typed, out)
}

#[cycle(reference)]
fn put_referred<O: TextEnd>(pen: Pen, referred: &Option<Boxed<Reference>>, out: &mut O) -> Pen
    ensures { PutsFields pen result (O.told out.old) (O.told out.new)
        ((codes "referredSemanticId", option_map compact_text (option_map spell_reference referred.now)) ∷ []) }
{
    match referred {
        Some(boxed) => {
            let named = add_key(pen, key::REFERRED_SEMANTIC_ID, out);
            Pen {
                state: pour_reference(named, boxed.get(), out),
                later: true,
            }
        },
        None => pen,
    }
}
