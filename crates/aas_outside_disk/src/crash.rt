/// What a stop leaves of the bytes that were written since the last sync of their file: the old ones, the new ones, or
/// 1 in each place.
#[derive(Clone, Copy, Debug, PartialEq, Eq)]
pub enum Crash {
    Old,
    New,
    Ones,
}
