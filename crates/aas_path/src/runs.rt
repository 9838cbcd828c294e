ghost use Rattle.std.specs.Prelude.{◌↔◌, IsTrue};
ghost use Rattle.aas_path.specs.Runs.{BeginsWith, IsRun};

use aas_lexical_forms::{ByteClass, after_any};

/// Whether the text begins with a byte of the class.
pub(crate) fn begins_with<C: ByteClass>(class: C, text: &[u8]) -> bool
    ensures { IsTrue result ↔ BeginsWith (C.is_in class) text.now }
{
    match text {
        [first, ..] => class.contains(*first),
        [] => false,
    }
}

/// How many bytes of the class stand at the front of the text.
#[tactic(auto, using(crate::proofs::RunsFound::found, crate::proofs::RunsFound::shorter))]
pub(crate) fn run_len<C: ByteClass>(class: C, text: &[u8]) -> usize
    ensures { IsRun (C.is_in class) text.now result }
{
    text.len() - after_any(class, text).len()
}
