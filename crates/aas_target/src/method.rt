// The methods of requests.
ghost use Rattle.std.specs.Prelude.{◌≡◌, IfOk, IfSome};
ghost use Rattle.std.specs.Str.{chars};
ghost use Rattle.aas_target.specs.Routes.{IsOneOf, allow_text, method_among};

use aas_model::{NoMemory, Text};
use std::alloc::Global;

/// A method that a resource may have (RFC 9110, section 9.3; RFC 5789).
#[derive(Clone, Copy)]
pub enum Method {
    Get,
    Post,
    Put,
    Patch,
    Delete,
}

impl Method {
    ghost use Rattle.aas_target.specs.Routes.{method_name};

    pub fn name(self) -> &'static str
        ensures { result.now ≡ method_name self }
    {
        match self {
            Method::Get => "GET",
            Method::Post => "POST",
            Method::Put => "PUT",
            Method::Patch => "PATCH",
            Method::Delete => "DELETE",
        }
    }
}

/// The method of this name, if it is one of those.
#[tactic(auto, using(crate::proofs::Methods::one_at))]
pub fn method_among(name: &str, methods: &[Method]) -> Option<Method>
    ensures found { result ≡ method_among name.now methods.now }
    ensures among { IfSome result (λ method. IsOneOf method methods.now) }
{
    for method in methods {
        if name == method.name() {
            return Some(*method);
        }
    }
    None
}

/// Methods as the field `Allow` lists them (RFC 9110, section 10.2.1).
pub fn allow_text(alloc: Global, methods: &[Method]) -> Result<Text, NoMemory>
    ensures { IfOk result (λ text. text ≡ chars (allow_text methods.now)) }
{
    let mut text = String::new(alloc);
    if let [first, others @ ..] = methods {
        text.push_str(first.name())?;
        for method in others {
            text.push_str(", ")?;
            text.push_str(method.name())?;
        }
    }
    Text::from_str(alloc, text.as_str())
}
