ghost use Rattle.std.specs.Prelude.{◌≡◌};
ghost use Rattle.std.specs.List.{find};
ghost use Rattle.std.specs.Option.{option_copied};
ghost use Rattle.aas_template.specs.Cardinality.{allows, cardinality, cardinality_named, is_many, is_word, stated, states_cardinality};

use aas_model::{Qualifier, Text};

/// How many elements of an instance may belong to an element of its template.
#[derive(Clone, Copy, Drop)]
pub(crate) enum Cardinality {
    One,
    ZeroToOne,
    ZeroToMany,
    OneToMany,
}

impl Cardinality {
    /// Whether so many may.
    pub(crate) fn allows(self, count: usize) -> bool
        ensures { result ≡ allows self count }
    {
        match self {
            Cardinality::One => count == 1,
            Cardinality::ZeroToOne => count <= 1,
            Cardinality::ZeroToMany => true,
            Cardinality::OneToMany => 1 <= count,
        }
    }

    /// Whether more than one may.
    pub(crate) fn is_many(self) -> bool
        ensures { result ≡ is_many self }
    {
        matches!(self, Cardinality::ZeroToMany | Cardinality::OneToMany)
    }
}

/// Whether the text is this word.
#[tactic(auto, unfolding(crate::specs::Cardinality::is_word))]
fn is_word(text: &Text, word: &str) -> bool
    ensures { result ≡ is_word text.now word.now }
{
    text.as_str() == word
}

/// Whether the qualifier states a cardinality.
fn states_cardinality(qualifier: &Qualifier) -> bool
    ensures { result ≡ states_cardinality qualifier.now }
{
    is_word(&qualifier.qualifier_type, "SMT/Cardinality")
        || is_word(&qualifier.qualifier_type, "Cardinality")
        || is_word(&qualifier.qualifier_type, "Multiplicity")
}

fn cardinality_named(name: &Text) -> Option<Cardinality>
    ensures { result ≡ cardinality_named name.now }
{
    if is_word(name, "One") {
        Some(Cardinality::One)
    } else if is_word(name, "ZeroToOne") {
        Some(Cardinality::ZeroToOne)
    } else if is_word(name, "ZeroToMany") {
        Some(Cardinality::ZeroToMany)
    } else if is_word(name, "OneToMany") {
        Some(Cardinality::OneToMany)
    } else {
        None
    }
}

/// The first of the qualifiers that states a cardinality.
fn first_stating(qualifiers: &[Qualifier]) -> Option<&Qualifier>
    ensures { option_copied result ≡ find states_cardinality qualifiers.now }
{
    qualifiers
        .iter()
        .find(|qualifier| states_cardinality(*qualifier))
}

/// The cardinality that it names.
fn stated_cardinality(qualifiers: &[Qualifier]) -> Option<Cardinality>
    ensures { result ≡ stated qualifiers.now }
{
    let qualifier = first_stating(qualifiers)?;
    match &qualifier.value {
        Some(value) => cardinality_named(value),
        None => None,
    }
}

/// The cardinality that the qualifiers state, or else `without`.
pub(crate) fn cardinality_of(without: Cardinality, qualifiers: &[Qualifier]) -> Cardinality
    ensures { result ≡ cardinality without qualifiers.now }
{
    match stated_cardinality(qualifiers) {
        Some(cardinality) => cardinality,
        None => without,
    }
}
