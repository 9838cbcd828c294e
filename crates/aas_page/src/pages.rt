use aas_model::{Many, Text};

/// Some of a collection's documents, in the order of their identifiers.
#[derive(Drop)]
pub struct Page {
    /// Their identifiers.
    pub ids: Many<Text>,
    /// Whether a further document follows.
    pub more: bool,
}
