ghost use Rattle.std.specs.Prelude.{◌≡◌, Bool};
ghost use Rattle.std.specs.List.{list_all};

use aas_model::Many;

/// A sort of trees, or of parts of trees, of which each is whole or isn't.
pub trait Whole {
    ghost whole: { Self → Bool };

    /// Whether it is whole, where a document or a part of one stands.
    fn is_whole(&self) -> bool
        ensures { result ≡ whole self.now };
}

/// Whether each of them is whole.
pub(crate) fn are_whole<T: Whole>(parts: &Many<T>) -> bool
    ensures { result ≡ list_all T.whole parts.now }
{
    for part in parts.as_slice() {
        if !part.is_whole() {
            return false;
        }
    }
    true
}
