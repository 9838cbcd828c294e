ghost use Rattle.std.specs.Prelude.{◌≡◌, [], ◌∷◌, ◌++◌, IfOk, OnOk, string_bytes, encode_utf8};
ghost use Rattle.std.specs.List.{flat_map};
ghost use Rattle.std.specs.Str.{encode_utf8_all};
ghost use Rattle.aas_json_table.specs.Pointer.{pointer_text, token_text, escaped_byte};
ghost use Rattle.aas_json_table.specs.Rows.{in_member};

use aas_model_text::{Many, NoMemory, Text};
use std::alloc::Global;
use std::marker::Model;

/// One step from a JSON value into what lies in it (RFC 6901, section 3: a reference token).
#[derive(Drop)]
pub enum Token {
    /// Into the member of this name.
    Member(Text),
    /// Into the item at this place, counted from 0.
    Item(usize),
}

impl Token {
    ghost use Rattle.std.specs.Prelude.{◌≡◌, ◌++◌, IfOk, OnOk, string_bytes};
    ghost use Rattle.aas_json_table.specs.Pointer.{token_text};
    ghost use Rattle.aas_json_table.specs.Rows.{in_member};
    ghost use Rattle.aas_json_table.specs.Seen.{token_of};

    /// The step into the member of this name.
    pub fn member(alloc: Global, name: &str) -> Result<Token, NoMemory>
        ensures { IfOk result (λ token. token_of token ≡ in_member name.now) }
    {
        Ok(Token::Member(Text::from_str(alloc, name)?))
    }

    fn push_onto(&self, text: &mut String) -> Result<(), NoMemory>
        ensures { OnOk result (string_bytes text.new
            ≡ string_bytes text.old ++ token_text (token_of self.now)) }
    {
        text.push('/')?;
        match self {
            Token::Member(name) => push_name(text, name.as_str()),
            Token::Item(place) => Ok(write!(text, "{place}")?),
        }
    }
}

/// The way from a JSON value to a place in it, which contracts see as a pointer.
#[derive(Drop)]
pub struct Trail {
    // The innermost token is the first, so that a trail grows outwards.
    inside_out: Many<Token>,
}

impl Model for Trail {
    ghost use Rattle.std.specs.Prelude.{map, reverse};
    ghost use Rattle.aas_json_table.specs.Rows.{Pointer};
    ghost use Rattle.aas_json_table.specs.Seen.{token_of};

    ghost Value = { Pointer };

    ghost view = { λ trail. reverse (map token_of trail.inside_out) };
}

impl Trail {
    ghost use Rattle.aas_json_table.specs.Seen.{token_of};

    /// The way to the value itself.
    pub fn here(alloc: Global) -> Trail
        ensures { result ≡ [] }
    {
        Trail {
            inside_out: Many::new(alloc),
        }
    }

    /// The same place, seen from one step further out.
    pub fn below(mut self, token: Token) -> Result<Trail, NoMemory>
        ensures { IfOk result (λ trail. trail ≡ token_of token ∷ self) }
    {
        self.inside_out.push(token)?;
        Ok(self)
    }
}

/// The text of the pointer (RFC 6901, sections 3 and 5). The empty pointer is `$`.
pub fn pointer(alloc: Global, trail: &Trail) -> Result<Text, NoMemory>
    ensures { IfOk result (λ text. encode_utf8_all text ≡ pointer_text trail.now) }
{
    if trail.inside_out.is_empty() {
        return Text::from_str(alloc, "$");
    }
    let mut text = String::new(alloc);
    for token in trail.inside_out.as_slice().iter().rev() {
        token.push_onto(&mut text)?;
    }
    Text::from_str(alloc, text.as_str())
}

fn push_name(text: &mut String, name: &str) -> Result<(), NoMemory>
    ensures { OnOk result (string_bytes text.new
        ≡ string_bytes text.old ++ flat_map escaped_byte name.now) }
{
    for character in name.chars() {
        push_escaped(text, character)?;
    }
    Ok(())
}

// In a name `~` is written `~0`, and `/` is written `~1`.
#[tactic(auto, using(crate::proofs::Escapes::escaped_plain))]
fn push_escaped(text: &mut String, character: char) -> Result<(), NoMemory>
    ensures { OnOk result (string_bytes text.new
        ≡ string_bytes text.old ++ flat_map escaped_byte (encode_utf8 character)) }
{
    match character {
        '~' => text.push_str("~0")?,
        '/' => text.push_str("~1")?,
        _ => text.push(character)?,
    }
    Ok(())
}
