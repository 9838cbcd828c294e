ghost use Rattle.std.specs.Prelude.{◌≡◌, ◌↔◌, IsTrue};
ghost use Rattle.std.specs.List.{list_all, zip};
ghost use Rattle.aas_reference.specs.Same.{IsSame, same, same_keys, same_key};

use aas_model::{Boxed, Key, Reference};

/// Whether two references are the same: of one type, with equal lists of keys. `referredSemanticId` isn't compared. This
/// profile's own rule.
pub fn same(a: &Reference, b: &Reference) -> bool
    ensures value { result ≡ same a.now b.now }
    ensures equal { IsTrue result ↔ IsSame a.now b.now }
{
    a.ref_type == b.ref_type && same_keys(a.keys.as_slice(), b.keys.as_slice())
}

#[tactic(auto, using(crate::proofs::Sameness::same_keys_zip, crate::proofs::Sameness::same_keys_other))]
fn same_keys(a: &[Key], b: &[Key]) -> bool
    ensures { result ≡ same_keys a.now b.now }
{
    a.len() == b.len() && same_in_pairs(a, b)
}

fn same_in_pairs(a: &[Key], b: &[Key]) -> bool
    ensures { result ≡ list_all (λ p. same_key p.0 p.1) (zip a.now b.now) }
{
    a.iter().zip(b.iter()).all(|(x, y)| same_key(x, y))
}

fn same_key(a: &Key, b: &Key) -> bool
    ensures { result ≡ same_key a.now b.now }
{
    a.key_type == b.key_type && a.value.same(&b.value)
}

/// Whether two references are equal, in their `referredSemanticId` too.
#[cycle(equal)]
pub fn equal(a: &Reference, b: &Reference) -> bool
    ensures { IsTrue result ↔ (a.now ≡ b.now) }
{
    same(a, b) && equal_referred(&a.referred, &b.referred)
}

#[cycle(equal)]
fn equal_referred(a: &Option<Boxed<Reference>>, b: &Option<Boxed<Reference>>) -> bool
    ensures { IsTrue result ↔ (a.now ≡ b.now) }
{
    match (a, b) {
        (Some(a), Some(b)) => equal(a.get(), b.get()),
        (None, None) => true,
        _ => false,
    }
}
