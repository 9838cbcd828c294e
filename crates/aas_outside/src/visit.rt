// What a wire answers that is asked for its next visit.

/// Whom the next visit of a wire goes to.
#[derive(Clone, Copy, Debug, PartialEq, Eq, Drop)]
pub enum NextVisit {
    /// A client that wasn't visited before.
    New,
    /// A client that was.
    Again,
    /// No visit is left.
    NoneLeft,
}
