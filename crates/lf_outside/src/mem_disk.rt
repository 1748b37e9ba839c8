//! A disk in memory, for tests. It keeps the calls that changed it, and its files are what they made.
ghost use Rattle.std.specs.Prelude.{◌≡◌, ◌↔◌, ℕ, List, Some, None, IsTrue, [], ◌∷◌, ◌++◌, OnOk, OnErr, IfOk, IfErr};
ghost use Rattle.std.specs.Option.{option_copied};
ghost use Rattle.std.specs.IoError.{error_kind};
ghost use Rattle.lf_outside.specs.Faults.{fault_of};
ghost use Rattle.lf_outside.specs.Disk.{Step, Wrote, Removed, bytes_in, Creates};
ghost use Rattle.lf_outside.specs.MemDisk.{step_of, steps_of, history_of, IsEffect};

use crate::disk::Disk;
use lf_base::GetFault;
use std::alloc::Global;
use std::collections::VecDeque;
use std::io::{self, Cursor, ErrorKind};

/// A call that changed the disk.
#[derive(Drop)]
pub enum MemStep {
    /// The file of this name has these bytes.
    Wrote(Vec<u8>, Vec<u8>),
    /// All bytes of the file are on the device.
    Synced(Vec<u8>, Vec<u8>),
    /// The file of the first name has the second.
    Renamed(Vec<u8>, Vec<u8>, Vec<u8>),
    /// There is no file of this name.
    Removed(Vec<u8>),
}

// What a call did to the file of a name.
enum Effect<'a> {
    Same,
    Gone,
    Bytes(&'a [u8]),
}

/// A disk in memory. It takes so many bytes of a piece at most, and its calls of these numbers fail; those that
/// change it are numbered from 0.
#[derive(Drop)]
pub struct MemDisk {
    alloc: Global,
    steps: VecDeque<MemStep>,
    most: usize,
    next: u64,
    fails: Vec<u64>,
    stuck: u64,
}

// Whether two names are one.
fn same(a: &[u8], b: &[u8]) -> bool
    ensures { IsTrue result ↔ (a.now ≡ b.now) }
{
    a == b
}

#[tactic(auto, using(crate::proofs::Memory::effects))]
fn effect_on<'a>(step: &'a MemStep, name: &[u8]) -> Effect<'a>
    ensures { IsEffect step.now name.now result }
{
    match step {
        MemStep::Wrote(under, bytes) => {
            if same(under.as_slice(), name) {
                Effect::Bytes(bytes.as_slice())
            } else {
                Effect::Same
            }
        }
        MemStep::Renamed(from, to, bytes) => {
            if same(to.as_slice(), name) {
                Effect::Bytes(bytes.as_slice())
            } else if same(from.as_slice(), name) {
                Effect::Gone
            } else {
                Effect::Same
            }
        }
        MemStep::Removed(under) => {
            if same(under.as_slice(), name) {
                Effect::Gone
            } else {
                Effect::Same
            }
        }
        MemStep::Synced(..) => Effect::Same,
    }
}

// The bytes of the file of the name.
fn file_in<'a>(steps: &'a VecDeque<MemStep>, name: &[u8]) -> Option<&'a [u8]>
    ensures { option_copied result ≡ bytes_in (steps_of steps.now.items) name.now }
{
    for step in steps {
        match effect_on(step, name) {
            Effect::Same => {}
            Effect::Gone => return None,
            Effect::Bytes(bytes) => return Some(bytes),
        }
    }
    None
}

// The error of a call that is to fail.
fn other() -> io::Error {
    io::Error::from(ErrorKind::Other)
}

/// A file of a disk in memory that is being written.
#[derive(Drop)]
pub struct MemFile;

impl MemDisk {
    /// An empty disk that takes so many bytes of a piece at most, and whose calls of these numbers fail.
    pub fn new(alloc: Global, most: usize, fails: Vec<u64>) -> MemDisk
        ensures { history_of result ≡ [] }
    {
        MemDisk {
            alloc,
            steps: VecDeque::new(alloc),
            most,
            next: 0,
            fails,
            stuck: 0,
        }
    }

    /// The bytes of a file, where the disk has one of that name.
    pub fn file(&self, name: &str) -> Option<&[u8]>
        ensures { option_copied result ≡ bytes_in (history_of self.now) name.now }
    {
        file_in(&self.steps, name.as_bytes())
    }

    // Numbers a call that changes the disk, and says whether it fails.
    fn refuse(&mut self) -> bool
        ensures same { history_of self.new ≡ history_of self.old }
        ensures stuck { self.new.stuck ≡ self.old.stuck }
    {
        let call = self.next;
        self.next = call.saturating_add(1);
        self.fails.contains(&call)
    }

    // The name as bytes of their own.
    fn own(&self, name: &str) -> io::Result<Vec<u8>>
        ensures { IfOk result (λ v. v.items ≡ name.now) }
    {
        Ok(Vec::from_slice(self.alloc, name.as_bytes())?)
    }

    // Notes a call that changed the disk.
    fn add(&mut self, step: MemStep) -> io::Result<()>
        ensures ok { OnOk result (history_of self.new ≡ step_of step ∷ history_of self.old) }
        ensures err { OnErr result (history_of self.new ≡ history_of self.old) }
        ensures stuck { self.new.stuck ≡ self.old.stuck }
    {
        self.steps.push_front(step)?;
        Ok(())
    }

    // A copy of the bytes of a file.
    fn copied(&self, name: &str) -> io::Result<Vec<u8>>
        ensures ok { IfOk result (λ v. bytes_in (history_of self.now) name.now ≡ Some v.items) }
        ensures err { IfErr result (λ e. fault_of (error_kind e) ≡ GetFault.Absent → bytes_in (history_of self.now) name.now ≡ None) }
    {
        match self.file(name) {
            Some(bytes) => Ok(Vec::from_slice(self.alloc, bytes)?),
            None => Err(io::Error::from(ErrorKind::NotFound)),
        }
    }

    // Makes an empty file.
    fn make(&mut self, name: &str) -> io::Result<()>
        requires { bytes_in (history_of self.old) name.now ≡ None }
        ensures creates { Creates (Some (history_of self.old)) (Some (history_of self.new)) name.now result }
        ensures stuck { self.new.stuck ≡ self.old.stuck }
    {
        let under = self.own(name)?;
        self.add(MemStep::Wrote(under, Vec::new(self.alloc)))
    }

    // Removes a file, unless this call fails.
    fn take_away(&mut self, name: &str) -> io::Result<()>
        ensures ok { OnOk result (history_of self.new ≡ Removed name.now ∷ history_of self.old) }
        ensures err { OnErr result (history_of self.new ≡ history_of self.old) }
        ensures stuck { self.new.stuck ≡ self.old.stuck }
    {
        if self.refuse() {
            return Err(other());
        }
        let under = self.own(name)?;
        self.add(MemStep::Removed(under))
    }

    // Writes all of the bytes to the end of a file.
    fn append(&mut self, name: &str, bytes: &[u8]) -> io::Result<()>
        ensures ok { OnOk result ((b : List ℕ) × (bytes_in (history_of self.old) name.now ≡ Some b) × (history_of self.new ≡ Wrote name.now (b ++ bytes.now) ∷ history_of self.old)) }
        ensures err { OnErr result (history_of self.new ≡ history_of self.old) }
        ensures stuck { self.new.stuck ≡ self.old.stuck }
    {
        let mut all = self.copied(name)?;
        all.extend_from_slice(bytes)?;
        let under = self.own(name)?;
        self.add(MemStep::Wrote(under, all))
    }
}

impl Disk for MemDisk {
    ghost history = { λ d. Some (history_of d) };

    ghost stuck = { λ d. d.stuck };

    type Opened = Cursor<Vec<u8>>;

    type Written = MemFile;

    fn open(&self, name: &str) -> io::Result<Cursor<Vec<u8>>> {
        Ok(Cursor::new(self.copied(name)?))
    }

    fn mode(&self, name: &str) -> io::Result<u32> {
        match self.file(name) {
            Some(_) => Ok(0o644),
            None => Err(io::Error::from(ErrorKind::NotFound)),
        }
    }

    fn limit(&self) -> u64 {
        u64::MAX
    }

    fn create(&mut self, name: &str) -> io::Result<MemFile> {
        if self.refuse() {
            return Err(other());
        }
        if self.file(name).is_some() {
            return Err(io::Error::from(ErrorKind::AlreadyExists));
        }
        self.make(name)?;
        Ok(MemFile)
    }

    fn write(&mut self, _file: &mut MemFile, name: &str, piece: &[u8]) -> io::Result<usize> {
        if self.refuse() {
            return Err(other());
        }
        let count = piece.len().min(self.most);
        self.append(name, &piece[..count])?;
        Ok(count)
    }

    fn set_mode(&mut self, _file: &mut MemFile, _mode: u32) -> io::Result<()> {
        if self.refuse() {
            return Err(other());
        }
        Ok(())
    }

    fn sync(&mut self, _file: &mut MemFile, name: &str) -> io::Result<()> {
        if self.refuse() {
            return Err(other());
        }
        let bytes = self.copied(name)?;
        let under = self.own(name)?;
        self.add(MemStep::Synced(under, bytes))
    }

    fn rename(&mut self, from: &str, to: &str) -> io::Result<()> {
        if self.refuse() {
            return Err(other());
        }
        let bytes = self.copied(from)?;
        let source = self.own(from)?;
        let target = self.own(to)?;
        self.add(MemStep::Renamed(source, target, bytes))
    }

    fn remove(&mut self, name: &str) -> io::Result<()> {
        match self.take_away(name) {
            Ok(()) => Ok(()),
            Err(error) => {
                self.stuck = self.stuck.saturating_add(1);
                Err(error)
            }
        }
    }
}
