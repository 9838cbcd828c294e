use aas_model::Kind;

/// One step down, as a `PathStep`, by a text that is not owned.
#[derive(Clone, Copy)]
pub enum StepRef<'a> {
    /// To the child of this idShort, of what is no SubmodelElementList.
    Name(&'a str),
    /// To the child at this place of a SubmodelElementList, counted from 0.
    Place(u64),
}

/// Where an element stands in its submodel.
#[derive(Clone, Copy, PartialEq, Eq)]
pub struct Spot {
    /// Its place in preorder, an element before those below it, counted from the submodel's first child on.
    pub rank: u64,
    pub kind: Kind,
}
