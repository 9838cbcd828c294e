ghost use Rattle.std.specs.Prelude.{◌≡◌, IfOk};

use crate::{Duplicate, Many, NoMemory, Text};

/// Kept data: a JSON value without numbers, of which nothing is read.
///
/// This profile's own rule for the contents of data specifications (IDTA-01001-3-0, class HasDataSpecification).
#[cycle(plain)]
#[derive(Drop)]
pub enum Plain {
    Null,
    Bool(bool),
    Str(Text),
    List(Many<Plain>),
    Map(Many<PlainPair>),
}

/// A member of a `Plain::Map`.
#[cycle(plain)]
#[derive(Drop)]
pub struct PlainPair {
    pub name: Text,
    pub value: Plain,
}

impl Duplicate for Plain {
    fn copy(&self) -> Result<Plain, NoMemory> {
        copy_plain(self)
    }
}

impl Duplicate for PlainPair {
    fn copy(&self) -> Result<PlainPair, NoMemory> {
        copy_pair(self)
    }
}

#[cycle(copy)]
fn copy_plain(plain: &Plain) -> Result<Plain, NoMemory>
    ensures { IfOk result (λ copied. copied ≡ plain.now) }
{
    match plain {
        Plain::Null => Ok(Plain::Null),
        Plain::Bool(truth) => Ok(Plain::Bool(*truth)),
        Plain::Str(text) => Ok(Plain::Str(text.copy()?)),
        Plain::List(items) => Ok(Plain::List(copy_items(items)?)),
        Plain::Map(members) => Ok(Plain::Map(copy_members(members)?)),
    }
}

#[cycle(copy)]
fn copy_pair(pair: &PlainPair) -> Result<PlainPair, NoMemory>
    ensures { IfOk result (λ copied. copied ≡ pair.now) }
{
    Ok(PlainPair {
        name: pair.name.copy()?,
        value: copy_plain(&pair.value)?,
    })
}

#[cycle(copy)]
fn copy_items(items: &Many<Plain>) -> Result<Many<Plain>, NoMemory>
    ensures { IfOk result (λ copied. copied ≡ items.now) }
{
    let mut copies = Many::new(items.alloc());
    for item in items.as_slice() {
        copies.push(copy_plain(item)?)?;
    }
    Ok(copies)
}

#[cycle(copy)]
fn copy_members(members: &Many<PlainPair>) -> Result<Many<PlainPair>, NoMemory>
    ensures { IfOk result (λ copied. copied ≡ members.now) }
{
    let mut copies = Many::new(members.alloc());
    for member in members.as_slice() {
        copies.push(copy_pair(member)?)?;
    }
    Ok(copies)
}
