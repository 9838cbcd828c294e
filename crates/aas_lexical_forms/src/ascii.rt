ghost use Rattle.std.specs.Prelude.{◌≡◌, ℕ, Bool};

/// A class of bytes.
pub trait ByteClass: Copy {
    ghost is_in: { Self → ℕ → Bool };

    /// Whether the byte is of the class.
    fn contains(self, byte: u8) -> bool
        ensures { result ≡ is_in self byte };
}

/// The usual classes of ASCII characters.
#[derive(Clone, Copy)]
pub enum Ascii {
    /// `0` to `9`.
    Digit,
    /// `0` to `9`, `A` to `F` and `a` to `f`.
    HexDigit,
    /// `A` to `Z` and `a` to `z`.
    Letter,
    /// A letter or a digit.
    Alphanumeric,
}

impl ByteClass for Ascii {
    ghost use Rattle.aas_lexical_forms.specs.Classes.{is_in};

    ghost is_in = { is_in };

    fn contains(self, byte: u8) -> bool {
        match self {
            Ascii::Digit => byte.is_ascii_digit(),
            Ascii::HexDigit => byte.is_ascii_hexdigit(),
            Ascii::Letter => byte.is_ascii_alphabetic(),
            Ascii::Alphanumeric => byte.is_ascii_alphanumeric(),
        }
    }
}
