// A piece of a file that was read.
ghost use Rattle.std.specs.Prelude.{◌≡◌, ◌+◌, ◌≤◌, [], length, take, drop, is_some, IfOk, IfSome, OnErr, OnOk};
ghost use Rattle.aas_outside_disk.specs.Disk.{IsDiskCall, OnlyReads};
ghost use Rattle.aas_outside_disk.specs.Files.{file};
ghost use Rattle.aas_outside_disk.specs.Piece.{bytes_at, lies_in, piece_bytes};

use crate::{Disk, Part};
use aas_model_text::NoMemory;
use aas_outside::Failed;
use std::alloc::Global;
use std::marker::Model;

/// How many bytes a piece has at most: hundreds of records, so that a call of the disk costs little for each of them,
/// and still little memory.
pub const PIECE_BYTES: usize = 65_536;

/// Bytes of a file that were read together, in storage that is made once.
#[derive(Drop)]
pub struct Piece {
    /// The bytes of the piece, and behind them any others.
    storage: Vec<u8>,
    part: Part,
    /// The place of the first byte in the file.
    at: u64,
    len: usize,
}

impl Model for Piece {
    ghost use Rattle.std.specs.Prelude.{◌≡◌, ◌≤◌, length, take};
    ghost use Rattle.aas_outside_disk.specs.Piece.{PieceState, piece_bytes};

    ghost Value = { PieceState };

    ghost view = { λ piece. record { part = piece.part; at = piece.at; bytes = take piece.len piece.storage.items } };

    ghost invariant = { λ piece. (length piece.storage.items ≡ piece_bytes) × (piece.len ≤ piece_bytes) };
}

impl Piece {
    /// A piece of no bytes.
    pub fn new(alloc: Global) -> Result<Piece, NoMemory>
        ensures { IfOk result (λ piece. piece.bytes ≡ []) }
    {
        Ok(Piece {
            storage: vec![in alloc; 0; PIECE_BYTES]?,
            part: Part::Main,
            at: 0,
            len: 0,
        })
    }

    /// The bytes of a range, where it has some and lies in the piece.
    pub fn get(&self, part: Part, at: u64, count: usize) -> Option<&[u8]>
        ensures found { is_some result ≡ lies_in self.now part at count }
        ensures bytes { IfSome result (λ bytes. bytes.now ≡ bytes_at self.now at count) }
    {
        if count == 0 || part != self.part {
            return None;
        }
        let from = at.checked_sub(self.at)? as usize;
        let end = from.checked_add(count)?;
        self.storage[..self.len].get(from..end)
    }

    /// Gives its bytes up.
    pub fn clear(&mut self)
        ensures { self.new ≡ record self.old { bytes = [] } }
    {
        self.len = 0;
    }

    /// Becomes so many bytes at a place of a file, which has them there. Where that fails it has no bytes.
    pub fn read<D: Disk>(
        &mut self,
        disk: &mut D,
        part: Part,
        at: u64,
        count: usize,
    ) -> Result<(), Failed>
        requires room { count ≤ piece_bytes }
        requires within { IfSome (D.state disk.old).seen (λ files. at + count ≤ length (file part files)) }
        ensures place { OnOk result ((self.new.part ≡ part) × (self.new.at ≡ at) × (length self.new.bytes ≡ count)) }
        ensures value { OnOk result (IfSome (D.state disk.old).seen (λ files.
            self.new ≡ record { part = part; at = at; bytes = take count (drop at (file part files)) })) }
        ensures none { OnErr result (self.new.bytes ≡ []) }
        ensures reads { OnlyReads (D.state disk.old) (D.state disk.new) }
        ensures call { IsDiskCall (D.state disk.old) (D.state disk.new) result }
    {
        self.len = 0;
        disk.read_at(part, at, &mut self.storage[0..count])?;
        self.part = part;
        self.at = at;
        self.len = count;
        Ok(())
    }
}
