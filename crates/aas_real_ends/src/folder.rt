// The files of the journal in the current folder.
ghost use Rattle.std.specs.Prelude.{◌≡◌, None, Some, IsSome, IfErr, IfOk, OnErr, OnOk};
ghost use Rattle.std.specs.IoError.{error_kind};
ghost use Rattle.aas_real_ends.specs.Folder.{AreOpened, Answers, Becomes, HasNoneOpen, IsOpened, KeepsOpen, Stays};
ghost use Rattle.aas_real_ends.specs.Folder.{file_of, name_of, with_file};
ghost use Rattle.aas_real_ends.specs.StoredFile.{Gives, HasLength, IsSynced, IsWritten};

use crate::stored_file::{FileOpener, StoredFile};
use aas_outside_disk::Part;
use std::io;
use std::io::ErrorKind;

/// The files `aas.journal`, `aas.spare` and `aas.selector` in a folder, each opened at the first call on it.
#[derive(Drop)]
pub struct Folder<O: FileOpener> {
    opener: O,
    main: Option<O::File>,
    spare: Option<O::File>,
    selector: Option<O::File>,
}

impl<O: FileOpener> Folder<O> {
    /// No file is opened yet.
    pub fn new(opener: O) -> Self
        ensures { HasNoneOpen result }
    {
        Folder {
            opener,
            main: None,
            spare: None,
            selector: None,
        }
    }

    pub fn length(&mut self, part: Part) -> io::Result<u64>
        requires { AreOpened ⟦<O::File as StoredFile>⟧ self.old }
        ensures opened { AreOpened ⟦<O::File as StoredFile>⟧ self.new }
        ensures main { OnOk result (IsSome self.new.main) }
        ensures keeps { KeepsOpen part self.old self.new }
        ensures length { IfOk result (λ count. Answers part self.old self.new
            (λ file. HasLength (O.File.state file) count)) }
    {
        self.open(part)?;
        self.file(part)?.length()
    }

    pub fn read_at(&mut self, part: Part, at: u64, buf: &mut [u8]) -> io::Result<()>
        requires { AreOpened ⟦<O::File as StoredFile>⟧ self.old }
        ensures opened { AreOpened ⟦<O::File as StoredFile>⟧ self.new }
        ensures main { OnOk result (IsSome self.new.main) }
        ensures keeps { KeepsOpen part self.old self.new }
        ensures read { OnOk result (Answers part self.old self.new
            (λ file. Gives (O.File.state file) at buf.new)) }
    {
        self.open(part)?;
        self.file(part)?.read_at(at, buf)
    }

    pub fn write_at(&mut self, part: Part, at: u64, bytes: &[u8]) -> io::Result<()>
        requires { AreOpened ⟦<O::File as StoredFile>⟧ self.old }
        ensures opened { AreOpened ⟦<O::File as StoredFile>⟧ self.new }
        ensures main { OnOk result (IsSome self.new.main) }
        ensures keeps { KeepsOpen part self.old self.new }
        ensures written { OnOk result (Becomes part self.old self.new
            (λ before after. IsWritten at bytes.now (O.File.state before) (O.File.state after))) }
    {
        self.open(part)?;
        let mut file = self.take(part)?;
        let written = file.write_at(at, bytes);
        self.put(part, file);
        written
    }

    pub fn sync(&mut self, part: Part) -> io::Result<()>
        requires { AreOpened ⟦<O::File as StoredFile>⟧ self.old }
        ensures opened { AreOpened ⟦<O::File as StoredFile>⟧ self.new }
        ensures main { OnOk result (IsSome self.new.main) }
        ensures keeps { KeepsOpen part self.old self.new }
        ensures synced { OnOk result (Becomes part self.old self.new
            (λ before after. IsSynced (O.File.state before) (O.File.state after))) }
    {
        self.open(part)?;
        let mut file = self.take(part)?;
        let synced = file.sync();
        self.put(part, file);
        synced
    }

    /// The file, where it is open.
    fn file(&self, part: Part) -> io::Result<&O::File>
        ensures open { IfOk result (λ file. file_of part self.now ≡ Some file.now) }
        ensures none { OnErr result (file_of part self.now ≡ None) }
        ensures fault { IfErr result (λ fault. error_kind fault ≡ ErrorKind.NotFound) }
    {
        let file = match part {
            Part::Main => &self.main,
            Part::Spare => &self.spare,
            Part::Selector => &self.selector,
        };
        file.as_ref().ok_or(io::Error::from(ErrorKind::NotFound))
    }

    /// Takes the file out, where it is open.
    fn take(&mut self, part: Part) -> io::Result<O::File>
        ensures open { IfOk result (λ file. file_of part self.old ≡ Some file) }
        ensures none { OnErr result (file_of part self.old ≡ None) }
        ensures without { self.new ≡ with_file part None self.old }
    {
        let file = match part {
            Part::Main => self.main.take(),
            Part::Spare => self.spare.take(),
            Part::Selector => self.selector.take(),
        };
        file.ok_or(io::Error::from(ErrorKind::NotFound))
    }

    /// Puts a file in.
    fn put(&mut self, part: Part, file: O::File)
        ensures { self.new ≡ with_file part (Some file) self.old }
    {
        match part {
            Part::Main => self.main = Some(file),
            Part::Spare => self.spare = Some(file),
            Part::Selector => self.selector = Some(file),
        }
    }

    /// Opens the file where it isn't open, and before it `aas.journal`, whose lock keeps other programs away.
    fn open(&mut self, part: Part) -> io::Result<()>
        requires { AreOpened ⟦<O::File as StoredFile>⟧ self.old }
        ensures opened { AreOpened ⟦<O::File as StoredFile>⟧ self.new }
        ensures main { OnOk result (IsSome self.new.main) }
        ensures open { OnOk result (IsSome (file_of part self.new)) }
        ensures stays { Stays (file_of part self.old) (file_of part self.new) }
        ensures keeps { KeepsOpen part self.old self.new }
    {
        self.open_alone(Part::Main)?;
        self.open_alone(part)
    }

    /// Opens the file where it isn't open.
    fn open_alone(&mut self, part: Part) -> io::Result<()>
        requires { AreOpened ⟦<O::File as StoredFile>⟧ self.old }
        ensures opened { AreOpened ⟦<O::File as StoredFile>⟧ self.new }
        ensures open { OnOk result (IsSome (file_of part self.new)) }
        ensures stays { Stays (file_of part self.old) (file_of part self.new) }
        ensures others { self.new ≡ with_file part (file_of part self.new) self.old }
    {
        if self.file(part).is_ok() {
            return Ok(());
        }
        let file = self.open_new(part)?;
        self.put(part, file);
        Ok(())
    }

    /// Opens the file by its name, and locks it where it is `aas.journal`.
    fn open_new(&self, part: Part) -> io::Result<O::File>
        ensures { IfOk result (IsOpened ⟦<O::File as StoredFile>⟧ part) }
    {
        let mut file = self.opener.open_or_make(name_of(part))?;
        if part == Part::Main {
            file.lock()?;
        }
        Ok(file)
    }
}

/// The name of the file of a part.
fn name_of(part: Part) -> &'static str
    ensures { result.now ≡ name_of part }
{
    match part {
        Part::Main => "aas.journal",
        Part::Spare => "aas.spare",
        Part::Selector => "aas.selector",
    }
}
