use aas_model::Element;

/// An element with all below it, and the level where it stands.
#[derive(Drop)]
pub(crate) struct Tree {
    pub(crate) level: u32,
    pub(crate) element: Element,
}
