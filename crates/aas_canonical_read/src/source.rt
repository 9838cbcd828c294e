// What is left of a text that is read.
ghost use Rattle.std.specs.Prelude.{IfSome};
ghost use Rattle.std.specs.Str.{IsUtf8};

use crate::canonical::Canonical;
use crate::plain::count_plain;
use aas_json_write_members::key;
use aas_model::{NoMemory, Text};
use aas_out::begins_with;
use std::alloc::Global;

/// How a reading stands.
#[derive(Clone, Copy, PartialEq, Eq)]
enum Reading {
    Going,
    /// The text was not followed any further.
    Astray,
    NoMemory,
}

/// What is left of a text, of which nothing is left once a reading doesn't go on.
///
/// It begins with the brace of an object, or with the comma before a further member: the name of a member is looked for
/// behind this one byte, whichever it is.
#[derive(Drop)]
pub(crate) struct Source<'a> {
    alloc: Global,
    rest: &'a str,
    state: Reading,
}

impl<'a> Source<'a> {
    /// The text that the bytes are in UTF-8, if they are one.
    pub(crate) fn new(alloc: Global, bytes: &'a [u8]) -> Option<Source<'a>>
        ensures { IfSome result (λ _. IsUtf8 bytes.now) }
    {
        match str::from_utf8(bytes) {
            Ok(rest) => Some(Source {
                alloc,
                rest,
                state: Reading::Going,
            }),
            Err(_) => None,
        }
    }

    /// What was read of the whole text, if nothing of it is left.
    pub(crate) fn finish<T: Drop>(self, tree: Option<T>) -> Result<Option<T>, NoMemory> {
        match self.state {
            Reading::Going if self.rest.is_empty() => Ok(tree),
            Reading::NoMemory => Err(NoMemory),
            _ => Ok(None),
        }
    }

    pub(crate) fn alloc(&self) -> Global {
        self.alloc
    }

    /// How many items a list that is left has at most.
    pub(crate) fn len(&self) -> usize {
        self.rest.len()
    }

    /// The text isn't followed any further.
    #[cold]
    pub(crate) fn stop(&mut self) {
        self.rest = "";
        if self.state == Reading::Going {
            self.state = Reading::Astray;
        }
    }

    /// Memory was refused.
    #[cold]
    pub(crate) fn stop_for_memory(&mut self) {
        self.rest = "";
        self.state = Reading::NoMemory;
    }

    /// The byte at a place of what is left, or 0 behind its end.
    #[inline(always)]
    pub(crate) fn byte_at(&self, place: usize) -> u8 {
        match self.rest.as_bytes().get(place) {
            Some(byte) => *byte,
            None => 0,
        }
    }

    /// The first letter of the name of the next member, where there is one.
    #[inline(always)]
    pub(crate) fn letter(&self) -> u8 {
        self.byte_at(2)
    }

    /// Passes over so many bytes, and says whether it did.
    #[inline(always)]
    fn pass(&mut self, count: usize) -> bool {
        match self.rest.get(count..) {
            Some(rest) => {
                self.rest = rest;
                true
            }
            None => false,
        }
    }

    /// Passes over a piece, if it is next.
    #[inline(always)]
    pub(crate) fn skip(&mut self, piece: &str) -> bool {
        begins_with(self.rest.as_bytes(), piece.as_bytes()) && self.pass(piece.len())
    }

    /// Passes over a piece, which is to be next.
    #[inline(always)]
    pub(crate) fn expect(&mut self, piece: &str) {
        if !self.skip(piece) {
            self.stop();
        }
    }

    /// Passes over the end of an object.
    #[inline(always)]
    pub(crate) fn end_object(&mut self) {
        self.expect("}");
    }

    /// The same, where the object may have no members.
    pub(crate) fn end_any_object(&mut self) {
        if !self.skip("{}") {
            self.end_object();
        }
    }

    /// Whether the next member is that of a key.
    #[inline(always)]
    pub(crate) fn is_at(&self, key: &str) -> bool {
        match (self.rest.as_bytes(), key.as_bytes()) {
            ([_, rest @ ..], [_, name @ ..]) => begins_with(rest, name),
            _ => false,
        }
    }

    /// Passes over the name of a member, if it is the next one.
    #[inline(always)]
    pub(crate) fn skip_key(&mut self, key: &str) -> bool {
        self.is_at(key) && self.pass(key.len())
    }

    /// Passes over the member that names a kind, whichever it names.
    pub(crate) fn skip_model_type(&mut self) {
        if self.skip_key(key::MODEL_TYPE) {
            let _ = self.read_plain();
        } else {
            self.stop();
        }
    }

    /// What is next, of which some text is to be there.
    #[inline(always)]
    pub(crate) fn read<T: Canonical>(&mut self) -> Option<T> {
        let read = T::read(self);
        if read.is_none() {
            self.stop();
        }
        read
    }

    /// A truth value.
    pub(crate) fn read_flag(&mut self) -> Option<bool> {
        if self.skip("true") {
            Some(true)
        } else if self.skip("false") {
            Some(false)
        } else {
            None
        }
    }

    /// A string without escapes.
    pub(crate) fn read_plain(&mut self) -> Option<&'a str> {
        if !self.skip("\"") {
            return None;
        }
        let text = self.read_front();
        if self.skip("\"") { Some(text) } else { None }
    }

    /// What stands before the first byte that a string doesn't have as it is.
    #[inline(always)]
    fn read_front(&mut self) -> &'a str {
        let length = count_plain(self.rest.as_bytes());
        match self.rest.split_at_checked(length) {
            Some((front, rest)) => {
                self.rest = rest;
                front
            }
            None => "",
        }
    }

    /// A string.
    pub(crate) fn read_text(&mut self) -> Option<Text> {
        if !self.skip("\"") {
            return None;
        }
        let front = self.read_front();
        let text = if self.skip("\"") {
            Text::from_str(self.alloc, front).map(Some)
        } else {
            self.read_escaped(front)
        };
        match text {
            Ok(text) => text,
            Err(NoMemory) => {
                self.stop_for_memory();
                None
            }
        }
    }

    /// A string that begins with these characters, and has an escape behind them.
    #[cold]
    #[inline(never)]
    fn read_escaped(&mut self, front: &str) -> Result<Option<Text>, NoMemory> {
        let mut text = String::from_str(self.alloc, front)?;
        for _ in 0..self.rest.len() {
            let Some(character) = self.read_escape() else {
                return Ok(None);
            };
            text.push(character)?;
            text.push_str(self.read_front())?;
            if self.skip("\"") {
                return Ok(Some(Text::from_str(self.alloc, &text)?));
            }
        }
        Ok(None)
    }

    /// The character that an escape stands for.
    fn read_escape(&mut self) -> Option<char> {
        let letter = self.byte_at(1);
        if !self.skip("\\") || !self.pass(1) {
            return None;
        }
        match letter {
            b'"' => Some('"'),
            b'\\' => Some('\\'),
            b'b' => Some('\u{8}'),
            b'f' => Some('\u{c}'),
            b'n' => Some('\n'),
            b'r' => Some('\r'),
            b't' => Some('\t'),
            b'u' => self.read_control(),
            _ => None,
        }
    }

    /// The control character whose number is left, in four digits.
    fn read_control(&mut self) -> Option<char> {
        let high = match self.byte_at(2) {
            b'0' => 0,
            b'1' => 16,
            _ => return None,
        };
        let low = match self.byte_at(3) {
            digit @ b'0'..=b'9' => digit - b'0',
            letter @ b'a'..=b'f' => letter - b'a' + 10,
            _ => return None,
        };
        if self.skip("00") && self.pass(2) {
            Some(char::from(high + low))
        } else {
            None
        }
    }
}
