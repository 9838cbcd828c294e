ghost use Rattle.std.specs.Prelude.{◌≡◌, ◌↔◌, ℕ, List, Option, Some, bytes_eq};
ghost use Rattle.std.specs.List.{find};
ghost use Rattle.aas_model_names.specs.Names.{FindsEach};

/// A value of an enumeration whose values have names of their own, which are ASCII.
///
/// In contracts a name is the list of its bytes, and `all` has the values in the order of the standard.
pub trait Named: Copy + 'static {
    ghost name_of: { Self → List ℕ };

    ghost all: { List Self };

    /// The name of this value.
    fn name(self) -> &'static str
        ensures { result.now ≡ name_of self };

    /// All values, each once.
    fn values() -> &'static [Self]
        ensures { result.now ≡ all };

    /// The value that has this name, or `None` where no value has it.
    final fn from_name(s: &str) -> Option<Self>
        ensures { (v : Self) → (result ≡ Some v) ↔ (s.now ≡ name_of v) }
    {
        first_named(s)
    }

    ghost found: { FindsEach name_of all };
}

fn first_named<V: Named>(s: &str) -> Option<V>
    ensures { result ≡ find (λ v. bytes_eq (V.name_of v) s.now) V.all }
{
    V::values()
        .iter()
        .copied()
        .find(|v| v.name().len() == s.len() && v.name() == s)
}
