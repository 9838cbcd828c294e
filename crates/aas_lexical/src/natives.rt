/// A value that JSON writes without quotes.
#[derive(Clone, Copy, PartialEq, Eq)]
pub enum Native {
    /// `true` or `false`.
    Bool(bool),
    /// A whole number from -2^63 to 2^64 - 1.
    Whole(i128),
}
