/// Submodel elements that stand by themselves or under a parent, as they are read.
pub struct Elements;

/// Shells, as they are read.
pub struct Shells;

/// Submodels, as they are read.
pub struct Submodels;

/// Concept descriptions, as they are read.
pub struct Concepts;

/// Environments, as they are read.
pub struct Environments;

/// Metadata forms of elements, as they are read.
pub struct Forms;

/// Metadata forms of submodels, as they are read.
pub struct SubmodelForms;
