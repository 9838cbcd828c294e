/// One of the three collections of documents that a repository keeps.
#[derive(Clone, Copy, PartialEq, Eq)]
pub enum Collection {
    Shells,
    Submodels,
    Concepts,
}

impl Collection {
    ghost use Rattle.std.specs.Prelude.{◌≡◌};
    ghost use Rattle.aas_model_names.specs.CollectionNames.{name_of};

    /// The printed word for one document of the collection.
    pub fn name(self) -> &'static str
        ensures { result.now ≡ name_of self }
    {
        match self {
            Collection::Shells => "shell",
            Collection::Submodels => "submodel",
            Collection::Concepts => "concept description",
        }
    }
}
