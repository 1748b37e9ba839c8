ghost use Rattle.std.specs.Prelude.{◌≡◌, refl, Some, None, map, string_bytes, IfOk, true, false};
ghost use Rattle.std.specs.Ordering.{nat_cmp};
ghost use Rattle.std.specs.Cmp.Lexicographic.{slice_cmp};
ghost use Rattle.std.specs.FinMap.{find, get};
ghost use Rattle.std.specs.Option.{option_copied};
ghost use Rattle.lf_base.specs.Files.{files_from};
ghost use Rattle.lf_base.specs.SureStore.{entry, files_of, name_of, bytes_of, Keeps, keeps_same_lem, keeps_further_lem, tells_lem, tells_none_lem};

use crate::fault::{GetFault, Memory, PutFault};
use crate::sink::Sink;
use crate::store::Store;
use std::alloc::Global;
use std::collections::VecDeque;

/// A file with its name.
#[derive(Drop)]
pub struct StoredFile {
    name: Vec<u8>,
    bytes: Vec<u8>,
}

/// A store in memory that never fails. Its newest files stand in front.
#[derive(Drop)]
pub struct SureStore {
    alloc: Global,
    files: VecDeque<StoredFile>,
    pending: Option<StoredFile>,
}

const GREATEST_FILE: usize = 67_108_864;

// The newest file of the name.
fn file_of<'a>(files: &'a VecDeque<StoredFile>, name: &[u8]) -> Option<&'a StoredFile>
    ensures { bytes_of (option_copied result) ≡ find (slice_cmp nat_cmp) name.now (map entry files.now.items) }
{
    for file in files {
        if file.name.as_slice() == name {
            return Some(file);
        }
    }
    None
}

impl SureStore {
    /// A store with these files, where the last entry of a name counts. It fails only for want of
    /// memory.
    pub fn new(alloc: Global, files: Vec<(String, Vec<u8>)>) -> Result<SureStore, Memory>
        ensures files { IfOk result (λ s. files_of s ≡ files_from (map (λ f. (string_bytes f.0, f.1.items)) files.items)) }
        ensures pending { IfOk result (λ s. name_of s.pending ≡ None) }
    {
        let mut stored = VecDeque::new(alloc);
        for (name, bytes) in files {
            let file = StoredFile {
                name: name.into_bytes(),
                bytes,
            };
            match stored.push_front(file) {
                Ok(()) => {}
                Err(_) => return Err(Memory),
            }
        }
        Ok(SureStore {
            alloc,
            files: stored,
            pending: None,
        })
    }

    /// The bytes of a file, where the store has one of that name.
    #[tactic(auto, using(crate::proofs::Stored::get_stored))]
    pub fn file(&self, name: &str) -> Option<&[u8]>
        ensures { option_copied result ≡ get (files_of self.now) name.now }
    {
        match file_of(&self.files, name.as_bytes()) {
            None => None,
            Some(file) => Some(file.bytes.as_slice()),
        }
    }

    /// Drops the pending file.
    pub(crate) fn drop_pending(&mut self)
        ensures pending { name_of self.new.pending ≡ None }
        ensures files { self.new.files ≡ self.old.files }
    {
        self.pending = None;
    }
}

impl Sink for SureStore {
    ghost contents = { λ s. bytes_of s.pending };

    ghost faults = { λ _. 0 };

    ghost may_fail = { false };

    ghost takes_memory = { true };

    ghost keeps = { Keeps };

    ghost keeps_same = { keeps_same_lem };

    ghost keeps_further = { keeps_further_lem };

    fn put(&mut self, piece: &[u8]) -> Result<(), PutFault> {
        match &mut self.pending {
            None => Ok(()),
            Some(file) => {
                file.bytes.extend_from_slice(piece)?;
                Ok(())
            }
        }
    }
}

impl Store for SureStore {
    ghost files = { λ s. Some (files_of s) };

    ghost pending = { λ s. name_of s.pending };

    ghost read_faults = { λ _. 0 };

    ghost keeps_files = { λ a b k. (k.files, k.pending, refl) };

    ghost tells_pending = { λ a f p. tells_lem a.pending p };

    ghost tells_none = { λ a p. tells_none_lem a.pending p };

    #[tactic(auto, using(crate::proofs::Stored::get_stored))]
    fn read(&mut self, alloc: Global, name: &str) -> Result<Vec<u8>, GetFault> {
        let Some(file) = file_of(&self.files, name.as_bytes()) else {
            return Err(GetFault::Absent);
        };
        if file.bytes.len() > GREATEST_FILE {
            return Err(GetFault::TooLong);
        }
        Ok(Vec::from_slice(alloc, file.bytes.as_slice())?)
    }

    fn start(&mut self, name: &str) -> Result<(), PutFault> {
        self.pending = None;
        self.pending = Some(StoredFile {
            name: Vec::from_slice(self.alloc, name.as_bytes())?,
            bytes: Vec::new(self.alloc),
        });
        Ok(())
    }

    fn finish(&mut self) -> Result<(), PutFault> {
        match self.pending.take() {
            None => unreachable!(),
            Some(file) => {
                self.files.push_front(file)?;
                Ok(())
            }
        }
    }
}
