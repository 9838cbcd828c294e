ghost use Rattle.std.specs.Prelude.{◌≡◌, ◌↔◌, IfOk, IsTrue, bytes_eq, true};
ghost use Rattle.std.specs.Str.{chars, encode_utf8_all, all_scalars};

use crate::duplicate::Duplicate;
use crate::no_memory::NoMemory;
use std::alloc::Global;
use std::marker::Model;

/// A text, which contracts see as the list of its characters.
#[derive(Debug, Drop)]
pub struct Text {
    text: String,
}

impl Model for Text {
    ghost use Rattle.std.specs.Prelude.{List, ℕ, string_bytes};
    ghost use Rattle.std.specs.Str.{chars};

    ghost Value = { List ℕ };

    ghost view = { λ text. chars (string_bytes text.text) };
}

impl Text {
    /// The text with the characters of `s`.
    pub fn from_str(alloc: Global, s: &str) -> Result<Text, NoMemory>
        ensures characters { IfOk result (λ text. text ≡ chars s.now) }
        ensures bytes { IfOk result (λ text. encode_utf8_all text ≡ s.now) }
    {
        match String::from_str(alloc, s) {
            Ok(text) => Ok(Text { text }),
            Err(_) => Err(NoMemory),
        }
    }

    /// The text in UTF-8.
    pub fn as_str(&self) -> &str
        ensures characters { chars result.now ≡ self.now }
        ensures bytes { result.now ≡ encode_utf8_all self.now }
        ensures scalars { all_scalars self.now ≡ true }
    {
        self.text.as_str()
    }

    /// Whether the two are the same text.
    pub fn same(&self, other: &Text) -> bool
        ensures value { result ≡ bytes_eq self.now other.now }
        ensures equal { IsTrue result ↔ (self.now ≡ other.now) }
    {
        same_text(self.text.as_str(), other.text.as_str())
    }
}

impl Duplicate for Text {
    fn copy(&self) -> Result<Text, NoMemory> {
        match self.text.clone() {
            Ok(text) => Ok(Text { text }),
            Err(_) => Err(NoMemory),
        }
    }
}

/// Whether the two have the same characters.
pub fn same_text(a: &str, b: &str) -> bool
    ensures value { result ≡ bytes_eq (chars a.now) (chars b.now) }
    ensures equal { IsTrue result ↔ (chars a.now ≡ chars b.now) }
{
    a == b
}
