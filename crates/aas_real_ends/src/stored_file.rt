// Files of a folder, as the disk of files uses them.
ghost use Rattle.std.specs.Prelude.{◌≡◌, ℕ, Bool, List, Option, IfOk, IsTrue, OnOk};
ghost use Rattle.aas_outside_disk.specs.FileState.{FileState};
ghost use Rattle.aas_real_ends.specs.StoredFile.{Gives, HasLength, HasName, IsSynced, IsWritten};

use std::io;

/// A file that is open for reading and writing.
///
/// One in memory would tell what is made of it; one of the system tells nothing.
pub trait StoredFile: Drop {
    /// The name by which it was opened, where it tells that.
    ghost name: { Self → Option (List ℕ) };

    /// What writes and syncs have made of it, where it tells that.
    ghost state: { Self → Option FileState };

    /// Whether it keeps other programs away, where it tells that. One that does not is taken to.
    ghost is_locked: { Self → Bool };

    /// How many bytes it has.
    fn length(&self) -> io::Result<u64>
        ensures { IfOk result (λ count. HasLength (state self.now) count) };

    /// Reads what stands at a place, up to the whole buffer.
    fn read_at(&self, at: u64, buf: &mut [u8]) -> io::Result<()>
        ensures { OnOk result (Gives (state self.now) at buf.new) };

    /// Writes at a place.
    fn write_at(&mut self, at: u64, bytes: &[u8]) -> io::Result<()>
        ensures written { OnOk result (IsWritten at bytes.now (state self.old) (state self.new)) }
        ensures name { name self.new ≡ name self.old }
        ensures locked { IsTrue (is_locked self.old) → IsTrue (is_locked self.new) };

    /// From then on a stop leaves what reads give.
    fn sync(&mut self) -> io::Result<()>
        ensures synced { OnOk result (IsSynced (state self.old) (state self.new)) }
        ensures name { name self.new ≡ name self.old }
        ensures locked { IsTrue (is_locked self.old) → IsTrue (is_locked self.new) };

    /// Fails where another program has it.
    fn lock(&mut self) -> io::Result<()>
        ensures locked { OnOk result (IsTrue (is_locked self.new)) }
        ensures name { name self.new ≡ name self.old }
        ensures state { state self.new ≡ state self.old };
}

/// A folder whose files are opened by name.
pub trait FileOpener {
    type File: StoredFile;

    /// Opens a file, which is made where it is missing. A stop leaves it in its folder from then on.
    fn open_or_make(&self, name: &str) -> io::Result<Self::File>
        ensures { IfOk result (λ file. HasName (Self.File.name file) name.now) };
}
