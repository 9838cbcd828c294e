// A disk that reads more than it is asked for.
ghost use Rattle.std.specs.Prelude.{◌≡◌};
ghost use Rattle.std.specs.Option.{ForSome};
ghost use Rattle.aas_outside_disk.specs.Piece.{IsRead};

use crate::piece::{PIECE_BYTES, Piece};
use crate::{Disk, Part};
use aas_model_text::NoMemory;
use aas_outside::Failed;
use std::alloc::Global;

/// A disk over another one that reads a large piece of a file at
/// once and answers the reads that lie in that piece from it.
///
/// A read of another range gives the piece up, whether it fails or not, and so does each write. Nothing is read ahead
/// for a range of no bytes, for one as large as a piece, or for one that the file doesn't have.
#[derive(Drop)]
pub struct ReadAhead<D: Disk> {
    disk: D,
    piece: Piece,
    ghost read: { ForSome (D.state disk).seen (λ files. IsRead files piece) },
}

impl<D: Disk> ReadAhead<D> {
    ghost use Rattle.std.specs.Prelude.{◌⊎◌, ◌+◌, ◌≤◌, [], length, IsOk, IsTrue, IfOk, IfSome, OnOk, OnErr};
    ghost use Rattle.aas_outside_disk.specs.Disk.{IsDiskCall, OnlyReads};
    ghost use Rattle.aas_outside_disk.specs.Files.{file};
    ghost use Rattle.aas_outside_disk.specs.Piece.{lies_in, piece_after};
    ghost use Rattle.aas_outside_disk.specs.ReadAhead.{disk_below, piece_of};

    /// No piece is read yet. Where memory is refused the disk is given up.
    pub fn new(alloc: Global, disk: D) -> Result<ReadAhead<D>, NoMemory>
    where
        D: Drop,
        ensures below { IfOk result (λ ahead. disk_below ahead ≡ disk) }
        ensures piece { IfOk result (λ ahead. (piece_of ahead).bytes ≡ []) }
    {
        let piece = Piece::new(alloc)?;
        Ok(ReadAhead { disk, piece })
    }

    /// Reads the piece that begins with the range, where the range doesn't lie in the present one. Where none is to be
    /// read, or that fails, there is none.
    fn fetch(&mut self, part: Part, at: u64, count: usize) -> Result<(), Failed>
        requires { IfSome (D.state (disk_below self.old)).seen (λ files. at + count ≤ length (file part files)) }
        ensures after { OnOk result (IfSome (D.state (disk_below self.old)).seen (λ files.
            piece_of self.new ≡ piece_after files (piece_of self.old) part at count)) }
        ensures either { OnOk result
            (IsTrue (lies_in (piece_of self.new) part at count) ⊎ ((piece_of self.new).bytes ≡ [])) }
        ensures none { OnErr result ((piece_of self.new).bytes ≡ []) }
        ensures held { IsTrue (lies_in (piece_of self.old) part at count) →
            IsOk result × (disk_below self.new ≡ disk_below self.old) × (piece_of self.new ≡ piece_of self.old) }
        ensures reads { OnlyReads (D.state (disk_below self.old)) (D.state (disk_below self.new)) }
        ensures call { IsDiskCall (D.state (disk_below self.old)) (D.state (disk_below self.new)) result }
    {
        let ReadAhead { disk, piece } = self;
        if piece.get(part, at, count).is_some() {
            return Ok(());
        }
        piece.clear();
        if count == 0 || count >= PIECE_BYTES {
            return Ok(());
        }
        let rest = disk.length(part)?.saturating_sub(at);
        if rest < count as u64 {
            return Ok(());
        }
        let most = rest.min(PIECE_BYTES as u64) as usize;
        piece.read(disk, part, at, most)
    }
}

impl<D: Disk> Disk for ReadAhead<D> {
    ghost use Rattle.std.specs.Prelude.{◌+◌, ◌≤◌, [], length, take, drop, IsOk, IsTrue, IfSome, OnOk, OnErr};
    ghost use Rattle.aas_outside_disk.specs.Disk.{Changes, IsDiskCall, OnlyReads, Tears, Writes};
    ghost use Rattle.aas_outside_disk.specs.Files.{file};
    ghost use Rattle.aas_outside_disk.specs.Piece.{bytes_at, lies_in, piece_after};
    ghost use Rattle.aas_outside_disk.specs.ReadAhead.{disk_below, piece_of};

    ghost state = { λ ahead. D.state ahead.disk };

    fn length(&mut self, part: Part) -> Result<u64, Failed> {
        self.disk.length(part)
    }

    fn read_at(&mut self, part: Part, at: u64, buf: &mut [u8]) -> Result<(), Failed>
        requires { IfSome (D.state (disk_below self.old)).seen (λ files. at + length buf.old ≤ length (file part files)) }
        ensures value { OnOk result (IfSome (D.state (disk_below self.old)).seen (λ files.
            buf.new ≡ take (length buf.old) (drop at (file part files)))) }
        ensures reads { OnlyReads (D.state (disk_below self.old)) (D.state (disk_below self.new)) }
        ensures call { IsDiskCall (D.state (disk_below self.old)) (D.state (disk_below self.new)) result }

        // A range that lies in the piece is answered from it, and the disk below isn't called.
        ensures held { IsTrue (lies_in (piece_of self.old) part at (length buf.old)) → IsOk result
            × (buf.new ≡ bytes_at (piece_of self.old) at (length buf.old))
            × (disk_below self.new ≡ disk_below self.old) × (piece_of self.new ≡ piece_of self.old) }
        ensures after { OnOk result (IfSome (D.state (disk_below self.old)).seen (λ files.
            piece_of self.new ≡ piece_after files (piece_of self.old) part at (length buf.old))) }
        ensures none { OnErr result ((piece_of self.new).bytes ≡ []) }
    {
        self.fetch(part, at, buf.len())?;
        match self.piece.get(part, at, buf.len()) {
            Some(bytes) => {
                buf.copy_from_slice(bytes);
                Ok(())
            }
            None => self.disk.read_at(part, at, buf),
        }
    }

    fn write_at(&mut self, part: Part, at: u64, bytes: &[u8]) -> Result<(), Failed>
        requires { IfSome (D.state (disk_below self.old)).seen (λ files. at ≤ length (file part files)) }
        ensures written { Writes part at bytes.now
            (D.state (disk_below self.old)).seen (D.state (disk_below self.new)).seen result }
        ensures images { Changes (D.state (disk_below self.old)) (D.state (disk_below self.new))
            (Tears part at (length bytes.now)) }
        ensures call { IsDiskCall (D.state (disk_below self.old)) (D.state (disk_below self.new)) result }
        ensures none { (piece_of self.new).bytes ≡ [] }
    {
        self.piece.clear();
        self.disk.write_at(part, at, bytes)
    }

    fn sync(&mut self, part: Part) -> Result<(), Failed> {
        self.disk.sync(part)
    }

    ghost seen_is_left = { λ ahead. D.seen_is_left ahead.disk };
}
