/// How far down a document or an element is shown.
///
/// IDTA-01002-3-0, serialization modifier Level.
#[derive(Clone, Copy, PartialEq, Eq)]
pub enum Level {
    /// With all that lies below.
    Deep,
    /// With the direct children alone.
    Core,
}

/// Whether the values of Blobs are shown.
///
/// IDTA-01002-3-0, serialization modifier Extent.
#[derive(Clone, Copy, PartialEq, Eq)]
pub enum Extent {
    WithoutBlobValue,
    WithBlobValue,
}
