// The stops among the members of an element.
ghost use Rattle.std.specs.Prelude.{◌≡◌};
ghost use Rattle.aas_json_write_members.specs.Members.{stops_behind, stops_from};

/// A stop: where among the members of an element its children stand, by the member that holds them. In byte order of
/// these members' names.
///
/// IDTA-01001-3-0, classes AnnotatedRelationshipElement, Operation, Entity, SubmodelElementCollection and
/// SubmodelElementList.
#[derive(Clone, Copy, Default)]
pub enum Stop {
    /// `annotations`.
    #[default]
    Annotations,
    /// `inoutputVariables`.
    InoutputVariables,
    /// `inputVariables`.
    InputVariables,
    /// `outputVariables`.
    OutputVariables,
    /// `statements`.
    Statements,
    /// `value`.
    Value,
}

impl Stop {
    /// The stop that follows this one.
    #[inline]
    pub fn next(self) -> Option<Stop>
        ensures { stops_from result ≡ stops_behind self }
    {
        match self {
            Stop::Annotations => Some(Stop::InoutputVariables),
            Stop::InoutputVariables => Some(Stop::InputVariables),
            Stop::InputVariables => Some(Stop::OutputVariables),
            Stop::OutputVariables => Some(Stop::Statements),
            Stop::Statements => Some(Stop::Value),
            Stop::Value => None,
        }
    }
}
