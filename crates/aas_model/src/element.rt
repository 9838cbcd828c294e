ghost use Rattle.std.specs.Prelude.{◌≡◌, IfOk};

use crate::{Common, Duplicate, Kind, Many, NoMemory, Payload, both};

/// Which attribute of its parent holds an element.
///
/// IDTA-01001-3-0, classes Submodel, SubmodelElementCollection, SubmodelElementList, AnnotatedRelationshipElement,
/// Entity and Operation.
#[derive(Clone, Copy, PartialEq, Eq)]
pub enum Role {
    /// `submodelElements` of a submodel, or `value` of a collection or a list.
    Member,
    /// `annotations`.
    Annotation,
    /// `statements`.
    Statement,
    /// `inputVariables`.
    Input,
    /// `outputVariables`.
    Output,
    /// `inoutputVariables`.
    Inoutput,
}

/// An element with all elements below it.
///
/// IDTA-01001-3-0, class SubmodelElement.
#[derive(Drop)]
pub struct Element {
    pub common: Common,
    pub payload: Payload,
    pub role: Role,
    /// Its children, in the order of their attribute. Those of an Operation are its input, output and inoutput
    /// variables, in this order.
    pub kids: Many<Element>,
}

impl Element {
    ghost use Rattle.aas_model.specs.Element.{kind_of};

    /// The kind of the element.
    pub fn kind(&self) -> Kind
        ensures { result ≡ kind_of self.now }
    {
        self.payload.kind()
    }
}

impl Duplicate for Element {
    fn copy(&self) -> Result<Element, NoMemory> {
        copy_element(self)
    }
}

#[cycle(copy)]
#[tactic(auto, using(crate::proofs::Made::same_element))]
fn copy_element(element: &Element) -> Result<Element, NoMemory>
    ensures { IfOk result (λ copied. copied ≡ element.now) }
{
    let attributes = both(element.common.copy(), element.payload.copy());
    let ((common, payload), kids) = both(attributes, copy_kids(&element.kids))?;
    Ok(Element {
        common,
        payload,
        role: element.role,
        kids,
    })
}

#[cycle(copy)]
fn copy_kids(kids: &Many<Element>) -> Result<Many<Element>, NoMemory>
    ensures { IfOk result (λ copied. copied ≡ kids.now) }
{
    let mut copies = Many::new(kids.alloc());
    for kid in kids.as_slice() {
        copies.push(copy_element(kid)?)?;
    }
    Ok(copies)
}
