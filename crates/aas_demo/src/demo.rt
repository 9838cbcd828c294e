ghost use Rattle.std.specs.Prelude.{◌≡◌, ◌++◌, IfOk, codes, decimal, map};
ghost use Rattle.std.specs.List.{range_with_len};
ghost use Rattle.aas_demo.specs.Demo.{common_with, environment_of, number_of, property_at, submodel_of, sum_of};

use aas_model::{
    Common, Element, Environment, Head, Many, NoMemory, Payload, Role, Semantics, Submodel, Text,
    ValueType,
};
use itoa::Buffer;
use std::alloc::Global;

/// The environment of the submodel `urn:demo` with so many properties of type xs:int.
pub fn environment_of(alloc: Global, count: u32) -> Result<Environment, NoMemory>
    ensures { IfOk result (λ environment. environment ≡ environment_of count) }
{
    let mut submodels = Many::new(alloc);
    submodels.push(submodel_of(alloc, count)?)?;
    Ok(Environment {
        shells: Many::new(alloc),
        submodels,
        concepts: Many::new(alloc),
    })
}

/// The sum of the numbers of so many properties.
pub fn sum_of(count: u32) -> u64
    ensures { result ≡ sum_of count }
{
    let mut sum: u64 = 0;
    for place in 0..count {
        sum += u64::from(number_of(place));
    }
    sum
}

fn submodel_of(alloc: Global, count: u32) -> Result<Submodel, NoMemory>
    ensures { IfOk result (λ submodel. submodel ≡ submodel_of count) }
{
    Ok(Submodel {
        head: Head::with_id(alloc, Text::from_str(alloc, "urn:demo")?),
        kind: None,
        semantics: Semantics::empty(alloc),
        qualifiers: Many::new(alloc),
        kids: properties(alloc, count)?,
    })
}

fn properties(alloc: Global, count: u32) -> Result<Many<Element>, NoMemory>
    ensures { IfOk result (λ properties. properties ≡ map property_at (range_with_len 0 count)) }
{
    let mut properties = Many::new(alloc);
    for place in 0..count {
        properties.push(property_at(alloc, place)?)?;
    }
    Ok(properties)
}

fn property_at(alloc: Global, place: u32) -> Result<Element, NoMemory>
    ensures { IfOk result (λ property. property ≡ property_at place) }
{
    Ok(Element {
        common: common_of(alloc, place)?,
        payload: Payload::Property {
            value_type: ValueType::Int,
            value: Some(decimal_text(alloc, number_of(place))?),
            value_id: None,
        },
        role: Role::Member,
        kids: Many::new(alloc),
    })
}

fn decimal_text(alloc: Global, number: u32) -> Result<Text, NoMemory>
    ensures { IfOk result (λ text. text ≡ decimal number) }
{
    Text::from_str(alloc, Buffer::new().format(number))
}

/// The number of the property at the place, counted from 0.
fn number_of(place: u32) -> u32
    ensures { result ≡ number_of place }
{
    // 37 times the place is the same, modulo 1,000, as 37 times what is left of it.
    place % 1000 * 37 % 1000 + 1
}

fn common_of(alloc: Global, place: u32) -> Result<Common, NoMemory>
    ensures { IfOk result (λ common. common ≡ common_with (codes "P" ++ decimal place)) }
{
    Ok(Common {
        id_short: Some(name_of(alloc, place)?),
        ..Common::empty(alloc)
    })
}

/// The idShort of the property at the place.
fn name_of(alloc: Global, place: u32) -> Result<Text, NoMemory>
    ensures { IfOk result (λ name. name ≡ codes "P" ++ decimal place) }
{
    let mut name = String::from_str(alloc, "P")?;
    name.push_str(Buffer::new().format(place))?;
    Text::from_str(alloc, &name)
}
