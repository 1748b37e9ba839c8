//! The files of a disk as a store. What it is given goes to a temporary file in the folder of the pending one,
//! which takes the place of the older file only as a whole.
ghost use Rattle.std.specs.Prelude.{◌≡◌, ◌≤◌, ◌+◌, ◌↔◌, true, false, None, refl, [], take, length, IsTrue, IsSome, IfOk, OnOk, OnErr, MatchOption, string_bytes};
ghost use Rattle.lf_base.specs.Files.{ReadGives, Begins, Finishes};
ghost use Rattle.lf_base.specs.Causes.{HasCause};
ghost use Rattle.lf_base.specs.Contents.{Appends, AppendsPart};
ghost use Rattle.lf_outside.specs.Names.{is_own};
ghost use Rattle.lf_outside.specs.Disk.{told, held, Removes, Publishes, GivesWhole, Gone, AllGone, AllPublished};
ghost use Rattle.lf_outside.specs.Faults.{put_fault_of};
ghost use Rattle.lf_outside.specs.DiskStore.{name_of, temporary_of, contents_of, Keeps, keeps_same_lem, keeps_further_lem, tells_pending_lem, tells_none_lem};

use crate::disk::Disk;
use crate::faults::{get_fault, put_fault};
use crate::names::{is_own, temporary_name};
use crate::pending::{PendingFile, Temporary};
use lf_base::{Failed, GetFault, PutFault, Sink, Store};
use std::alloc::Global;
use std::io::{self, ErrorKind, Read};

/// The most bytes of a file that is read.
const GREATEST_FILE: u64 = 67_108_864;

/// How many names are tried for a temporary file.
const TEMPORARY_NAMES: u32 = 1000;

/// The files of a disk as a store, where the disk tells them. Names that end in `.tmp` are its own: files under
/// them are none of its files. A file that is still pending when the store is dropped goes too.
pub struct DiskStore<D: Disk> {
    disk: D,
    alloc: Global,
    pending: Option<PendingFile<D::Written>>,
    faults: u64,
    read_faults: u64,
}

// All bytes of a reader. One byte more than a file may have is read at most: a file can grow, and some tell no size.
fn read_whole<R: Read + Drop>(file: R, alloc: Global) -> Result<Vec<u8>, GetFault>
    ensures { GivesWhole (λ v. v.items) (R.remaining file) result }
{
    let mut bytes = Vec::new(alloc);
    match file.take(GREATEST_FILE + 1).read_to_end(&mut bytes) {
        Ok(count) if count as u64 > GREATEST_FILE => Err(GetFault::TooLong),
        Ok(_) => Ok(bytes),
        Err(error) if error.kind() == ErrorKind::OutOfMemory => Err(GetFault::Memory),
        Err(_) => Err(GetFault::Failed),
    }
}

// All bytes of a file of the disk, which is none of the store's own.
fn read_file<D: Disk>(disk: &D, alloc: Global, name: &str) -> Result<Vec<u8>, GetFault>
    ensures { ReadGives (λ v. v.items) (told (D.history disk.now)) name.now result }
{
    if is_own(name) {
        return Err(GetFault::Absent);
    }
    match disk.open(name) {
        Ok(file) => read_whole(file, alloc),
        Err(error) => Err(get_fault(error.kind())),
    }
}

// Makes an empty file under the temporary name of this number, unless a file has that name.
fn try_temporary<D: Disk>(
    disk: &mut D,
    alloc: Global,
    name: &str,
    number: u32,
) -> Result<Option<Temporary<D::Written>>, PutFault>
    ensures told { told (D.history disk.new) ≡ told (D.history disk.old) }
    ensures made { IfOk result (λ made. MatchOption made (D.history disk.new ≡ D.history disk.old) (λ t. Begins (told (D.history disk.old)) (held (D.history disk.new) (string_bytes t.name)))) }
    ensures err { OnErr result (D.history disk.new ≡ D.history disk.old) }
{
    let temporary = temporary_name(alloc, name, number)?;
    match disk.create(temporary.as_str()) {
        Ok(file) => Ok(Some(Temporary {
            name: temporary,
            file,
        })),
        Err(error) if error.kind() == ErrorKind::AlreadyExists => Ok(None),
        Err(error) => Err(put_fault(error.kind())),
    }
}

// Makes an empty file of a temporary name that no file had before.
fn make_temporary<D: Disk>(
    disk: &mut D,
    alloc: Global,
    name: &str,
) -> Result<Temporary<D::Written>, PutFault>
    ensures told { told (D.history disk.new) ≡ told (D.history disk.old) }
    ensures made { IfOk result (λ t. Begins (told (D.history disk.old)) (held (D.history disk.new) (string_bytes t.name))) }
    ensures err { OnErr result (D.history disk.new ≡ D.history disk.old) }
{
    for number in 0..TEMPORARY_NAMES {
        if let Some(made) = try_temporary(disk, alloc, name, number)? {
            return Ok(made);
        }
    }
    Err(PutFault::Failed)
}

// Begins an empty file that is to stand under the name. A refused call leaves no file.
fn begin<D: Disk>(
    disk: &mut D,
    alloc: Global,
    name: &str,
) -> Result<PendingFile<D::Written>, PutFault>
    ensures name { IfOk result (λ p. string_bytes p.name ≡ name.now) }
    ensures told { told (D.history disk.new) ≡ told (D.history disk.old) }
    ensures made { IfOk result (λ p. Begins (told (D.history disk.old)) (held (D.history disk.new) (string_bytes p.temporary.name))) }
    ensures err { OnErr result (D.history disk.new ≡ D.history disk.old) }
{
    if is_own(name) {
        return Err(PutFault::Failed);
    }
    let name = String::from_str(alloc, name)?;
    let limit = disk.limit();
    let temporary = make_temporary(disk, alloc, name.as_str())?;
    Ok(PendingFile {
        name,
        temporary,
        written: 0,
        limit,
    })
}

/// Whether so many bytes more keep a file within its limit.
pub fn has_room(written: u64, more: usize, limit: u64) -> bool
    ensures { IsTrue result ↔ (written + more ≤ limit) }
{
    written <= limit && more as u64 <= limit - written
}

// One write to a file. It answers how many bytes were taken; none are where a signal came first. A disk that takes
// none of a piece has failed.
fn write_some<D: Disk>(
    disk: &mut D,
    file: &mut D::Written,
    name: &str,
    piece: &[u8],
) -> Result<usize, Failed>
    requires { is_own name.now ≡ true }
    ensures bound { IfOk result (λ n. n ≤ length piece.now) }
    ensures told { told (D.history disk.new) ≡ told (D.history disk.old) }
    ensures ok { IfOk result (λ n. Appends (held (D.history disk.old) name.now) (held (D.history disk.new) name.now) (take n piece.now)) }
    ensures err { OnErr result (Appends (held (D.history disk.old) name.now) (held (D.history disk.new) name.now) []) }
{
    match disk.write(file, name, piece) {
        Ok(0) => Err(Failed),
        Ok(count) => Ok(count),
        Err(error) if error.kind() == ErrorKind::Interrupted => Ok(0),
        Err(_) => Err(Failed),
    }
}

// Writes the whole piece to the end of a file. Where the disk fails, a front of it is written.
#[tactic(auto, using(crate::proofs::Streams::streams))]
fn write_all<D: Disk>(
    disk: &mut D,
    file: &mut D::Written,
    name: &str,
    piece: &[u8],
) -> Result<(), Failed>
    requires { is_own name.now ≡ true }
    ensures told { told (D.history disk.new) ≡ told (D.history disk.old) }
    ensures ok { OnOk result (Appends (held (D.history disk.old) name.now) (held (D.history disk.new) name.now) piece.now) }
    ensures err { OnErr result (AppendsPart (held (D.history disk.old) name.now) (held (D.history disk.new) name.now) piece.now) }
{
    let mut done = 0;
    for _ in 0..u64::MAX {
        if done == piece.len() {
            return Ok(());
        }
        done += write_some(disk, file, name, &piece[done..])?;
    }
    Err(Failed)
}

// Writes the whole piece to the end of the pending file, unless the file would pass its limit, which nothing is
// written for.
fn append<D: Disk>(
    disk: &mut D,
    pending: &mut PendingFile<D::Written>,
    piece: &[u8],
) -> Result<(), Failed>
    ensures name { pending.new.name ≡ pending.old.name }
    ensures temporary { pending.new.temporary.name ≡ pending.old.temporary.name }
    ensures told { told (D.history disk.new) ≡ told (D.history disk.old) }
    ensures ok { OnOk result (Appends (held (D.history disk.old) (string_bytes pending.old.temporary.name)) (held (D.history disk.new) (string_bytes pending.old.temporary.name)) piece.now) }
    ensures err { OnErr result (AppendsPart (held (D.history disk.old) (string_bytes pending.old.temporary.name)) (held (D.history disk.new) (string_bytes pending.old.temporary.name)) piece.now) }
{
    if !has_room(pending.written, piece.len(), pending.limit) {
        return Err(Failed);
    }
    pending.written += piece.len() as u64;
    let temporary = &mut pending.temporary;
    write_all(disk, &mut temporary.file, temporary.name.as_str(), piece)
}

// Gives a file the permissions of the one whose place it is to take, where there is one.
fn keep_mode<D: Disk>(disk: &mut D, file: &mut D::Written, name: &str) -> io::Result<()>
    ensures same { D.history disk.new ≡ D.history disk.old }
    ensures stuck { D.stuck disk.new ≡ D.stuck disk.old }
{
    match disk.mode(name) {
        Ok(mode) => disk.set_mode(file, mode),
        Err(error) if error.kind() == ErrorKind::NotFound => Ok(()),
        Err(error) => Err(error),
    }
}

// Puts a file in the place of its name, once all of it is on the device.
fn publish<D: Disk>(
    disk: &mut D,
    temporary: &mut Temporary<D::Written>,
    name: &str,
) -> io::Result<()>
    ensures name { temporary.new.name ≡ temporary.old.name }
    ensures stuck { D.stuck disk.new ≡ D.stuck disk.old }
    ensures publishes { Publishes (D.history disk.old) (D.history disk.new) (string_bytes temporary.old.name) name.now result }
{
    keep_mode(disk, &mut temporary.file, name)?;
    disk.sync(&mut temporary.file, temporary.name.as_str())?;
    disk.rename(temporary.name.as_str(), name)
}

// Removes a temporary file, where the disk lets it.
fn remove<D: Disk>(disk: &mut D, name: &str)
    requires { is_own name.now ≡ true }
    ensures told { told (D.history disk.new) ≡ told (D.history disk.old) }
    ensures gone { Gone (D.history disk.new) (D.stuck disk.old) (D.stuck disk.new) name.now }
{
    let _ = disk.remove(name);
}

impl<D: Disk> DiskStore<D> {
    /// A store over the disk, with no pending file.
    pub fn new(disk: D, alloc: Global) -> DiskStore<D>
        ensures disk { result.disk ≡ disk }
        ensures pending { name_of result.pending ≡ None }
    {
        DiskStore {
            disk,
            alloc,
            pending: None,
            faults: 0,
            read_faults: 0,
        }
    }

    /// Drops a pending file. Its temporary file goes where the disk lets it.
    pub fn drop_pending(&mut self)
        ensures pending { self.new.pending ≡ None }
        ensures told { told (D.history self.new.disk) ≡ told (D.history self.old.disk) }
        ensures gone { AllGone (D.history self.new.disk) (D.stuck self.old.disk) (D.stuck self.new.disk) (temporary_of self.old.pending) }
        ensures faults { self.new.faults ≡ self.old.faults }
        ensures read_faults { self.new.read_faults ≡ self.old.read_faults }
    {
        if let Some(pending) = self.pending.take() {
            remove(&mut self.disk, pending.temporary.name.as_str());
        }
    }
}

impl<D: Disk> Drop for DiskStore<D> {
    fn drop(self) {
        let DiskStore {
            mut disk,
            alloc: _,
            pending,
            faults: _,
            read_faults: _,
        } = self;
        if let Some(pending) = pending {
            remove(&mut disk, pending.temporary.name.as_str());
        }
    }
}

impl<D: Disk> Sink for DiskStore<D> {
    ghost contents = { λ s. contents_of (D.history s.disk) s.pending };

    ghost faults = { λ s. s.faults };

    ghost may_fail = { true };

    ghost takes_memory = { true };

    ghost keeps = { λ a b. Keeps (told (D.history a.disk)) (name_of a.pending) a.read_faults (told (D.history b.disk)) (name_of b.pending) b.read_faults };

    ghost keeps_same = { λ a. keeps_same_lem (told (D.history a.disk)) (name_of a.pending) a.read_faults };

    ghost keeps_further = { λ a b c p q. keeps_further_lem p q };

    fn put(&mut self, piece: &[u8]) -> Result<(), PutFault> {
        let Some(pending) = &mut self.pending else {
            return Ok(());
        };
        match append(&mut self.disk, pending, piece) {
            Ok(()) => Ok(()),
            Err(_) => {
                self.faults = self.faults.saturating_add(1);
                Err(PutFault::Failed)
            }
        }
    }
}

impl<D: Disk> Store for DiskStore<D> {
    ghost files = { λ s. told (D.history s.disk) };

    ghost pending = { λ s. name_of s.pending };

    ghost read_faults = { λ s. s.read_faults };

    ghost keeps_files = { λ a b k. (k.files_same, k.pending_same, k.read_faults_same) };

    ghost tells_pending = { λ a f p. tells_pending_lem (D.history a.disk) a.pending f p };

    ghost tells_none = { λ a p. tells_none_lem (D.history a.disk) a.pending p };

    fn read(&mut self, alloc: Global, name: &str) -> Result<Vec<u8>, GetFault> {
        match read_file(&self.disk, alloc, name) {
            Err(GetFault::Failed) => {
                self.read_faults = self.read_faults.saturating_add(1);
                Err(GetFault::Failed)
            }
            answer => answer,
        }
    }

    fn start(&mut self, name: &str) -> Result<(), PutFault> {
        self.drop_pending();
        match begin(&mut self.disk, self.alloc, name) {
            Ok(pending) => {
                self.pending = Some(pending);
                Ok(())
            }
            Err(PutFault::Memory) => Err(PutFault::Memory),
            Err(PutFault::Failed) => {
                self.faults = self.faults.saturating_add(1);
                Err(PutFault::Failed)
            }
        }
    }

    fn finish(&mut self) -> Result<(), PutFault>
        requires { IsSome (name_of self.old.pending) }
        ensures ok { OnOk result (Finishes (told (D.history self.old.disk)) (name_of self.old.pending) (contents_of (D.history self.old.disk) self.old.pending) (told (D.history self.new.disk))) }
        ensures err { OnErr result (told (D.history self.new.disk) ≡ told (D.history self.old.disk)) }
        ensures pending { name_of self.new.pending ≡ None }
        ensures read_faults { self.new.read_faults ≡ self.old.read_faults }
        ensures cause { HasCause true true self.old.faults self.new.faults result }
        ensures published { OnOk result (AllPublished (D.history self.old.disk) (D.history self.new.disk) (temporary_of self.old.pending) (name_of self.old.pending)) }
        ensures gone { OnErr result (AllGone (D.history self.new.disk) (D.stuck self.old.disk) (D.stuck self.new.disk) (temporary_of self.old.pending)) }
    {
        let Some(pending) = self.pending.take() else {
            unreachable!()
        };
        let PendingFile {
            name,
            mut temporary,
            written: _,
            limit: _,
        } = pending;
        match publish(&mut self.disk, &mut temporary, name.as_str()) {
            Ok(()) => Ok(()),
            Err(_) => {
                remove(&mut self.disk, temporary.name.as_str());
                self.faults = self.faults.saturating_add(1);
                Err(PutFault::Failed)
            }
        }
    }
}
