// Queries, read setting by setting.
ghost use Rattle.std.specs.Prelude.{◌≡◌, Err, IfOk, OnErr, OnOk};
ghost use Rattle.std.specs.Cow.{cow_str_bytes};
ghost use Rattle.aas_target.specs.Given.{Gives, IsBadIn, shown_of};
ghost use Rattle.aas_target.specs.Pairs.{IsRefused, TakesIfListed};
ghost use Rattle.aas_target.specs.Query.{form_text, parameter_among, setting_of};
ghost use Rattle.aas_target.specs.declared.given.Given.{Given};
ghost use Rattle.aas_target.specs.declared.parameter.Parameter.{Parameter};
ghost use Rattle.aas_target.specs.declared.query.QueryFault.TheVariants.{BadQuery, NoMemory};

use crate::given::{Given, Shown};
use crate::parameter::Parameter;
use form_urlencoded::{decode, raw_pairs};
use std::alloc::Global;
use std::borrow::CowStr;
use thiserror::Error;

/// Why a query gives nothing.
#[derive(Clone, Copy, Debug, Error)]
pub enum QueryFault {
    /// A parameter that is listed isn't of its form, or is given again.
    #[error("the parameter `{}` isn't of its form, or is given again", .parameter.name())]
    BadQuery { parameter: Parameter },
    #[error("memory was refused")]
    NoMemory,
}

/// What the query gives of the parameters that a resource lists.
///
/// # Errors
///
/// `BadQuery` at the first parameter that isn't of its form, or is given again.
pub fn read_query(alloc: Global, query: &[u8], listed: &[Parameter]) -> Result<Given, QueryFault>
    ensures ok { IfOk result (Gives listed.now query.now) }
    ensures bad { (parameter : Parameter) → result ≡ Err (BadQuery parameter) → IsBadIn listed.now query.now parameter }
{
    let mut given = Given::nothing(alloc);
    for (name, value) in raw_pairs(query) {
        take_pair(alloc, listed, &mut given, name, value)?;
    }
    Ok(given)
}

/// How much is shown by what the query gives of the parameters that a resource lists. Most queries are empty, and give nothing.
///
/// # Errors
///
/// As [`read_query`].
pub fn read_shown(alloc: Global, query: &[u8], listed: &[Parameter]) -> Result<Shown, QueryFault>
    ensures ok { IfOk result (λ shown. (given : Given) × Gives listed.now query.now given × (shown ≡ shown_of given)) }
    ensures bad { (parameter : Parameter) → result ≡ Err (BadQuery parameter) → IsBadIn listed.now query.now parameter }
{
    if query.is_empty() {
        return Ok(Shown::by_default());
    }
    shown_by(alloc, query, listed)
}

#[inline(never)]
fn shown_by(alloc: Global, query: &[u8], listed: &[Parameter]) -> Result<Shown, QueryFault>
    ensures ok { IfOk result (λ shown. (given : Given) × Gives listed.now query.now given × (shown ≡ shown_of given)) }
    ensures bad { (parameter : Parameter) → result ≡ Err (BadQuery parameter) → IsBadIn listed.now query.now parameter }
{
    let given = read_query(alloc, query, listed)?;
    Ok(given.shown())
}

/// Takes one pair of a query, which is passed over if its parameter isn't listed.
fn take_pair(
    alloc: Global,
    listed: &[Parameter],
    given: &mut Given,
    name: &[u8],
    value: &[u8],
) -> Result<(), QueryFault>
    ensures ok { OnOk result (TakesIfListed given.old (setting_of listed.now (name.now, value.now)) given.new) }
    ensures bad { (parameter : Parameter) → result ≡ Err (BadQuery parameter)
        → IsRefused given.old (setting_of listed.now (name.now, value.now)) parameter }
{
    let name = text_of(alloc, name)?;
    let Some(parameter) = parameter_among(listed, name.as_str()) else {
        return Ok(());
    };
    let value = text_of(alloc, value)?;
    match given.take(alloc, parameter, value.as_str()) {
        Ok(true) => Ok(()),
        Ok(false) => Err(QueryFault::BadQuery { parameter }),
        Err(_) => Err(QueryFault::NoMemory),
    }
}

/// The text for which a name or a value stands.
fn text_of(alloc: Global, part: &[u8]) -> Result<CowStr<'_, Global>, QueryFault>
    ensures ok { IfOk result (λ text. cow_str_bytes text ≡ form_text part.now) }
    ensures err { OnErr result (result ≡ Err NoMemory) }
{
    match decode(alloc, part) {
        Ok(text) => Ok(text),
        Err(_) => Err(QueryFault::NoMemory),
    }
}

/// The parameter of this name, if it is one of those.
fn parameter_among(listed: &[Parameter], name: &str) -> Option<Parameter>
    ensures { result ≡ parameter_among name.now listed.now }
{
    for parameter in listed {
        if name == parameter.name() {
            return Some(*parameter);
        }
    }
    None
}
