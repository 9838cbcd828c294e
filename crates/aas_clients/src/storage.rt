// Bytes in storage that doesn't grow behind one's back.
ghost use Rattle.std.specs.Prelude.{◌≡◌, ◌≤◌, ◌+◌, ◌++◌, length, vec_capacity, vec_len, IfOk};

use aas_model_text::NoMemory;
use std::alloc::Global;

/// Adds a piece for which there is room: the storage stays.
pub(crate) fn fill(bytes: &mut Vec<u8>, piece: &[u8])
    requires { vec_len bytes.old + length piece.now ≤ vec_capacity bytes.old }
    ensures items { bytes.new.items ≡ bytes.old.items ++ piece.now }
    ensures storage { vec_capacity bytes.new ≡ vec_capacity bytes.old }
{
    for byte in piece {
        bytes.push_reserved(*byte);
    }
}

/// These bytes in storage of their size.
pub(crate) fn copy_of(alloc: Global, bytes: &[u8]) -> Result<Vec<u8>, NoMemory>
    ensures items { IfOk result (λ copy. copy.items ≡ bytes.now) }
    ensures storage { IfOk result (λ copy. vec_capacity copy ≡ length bytes.now) }
{
    let mut copy = Vec::with_capacity(alloc, bytes.len())?;
    fill(&mut copy, bytes);
    Ok(copy)
}
