//! The ambiguous names of scopes (ISO/IEC 1539-1:2018, 14.2.2): names by which two entities are accessible, none of
//! which may be referenced. They are no part of any tree.
ghost use Rattle.std.specs.Prelude.{◌≡◌, [], IfOk, OnOk, OnErr};
ghost use Rattle.asr_nodes.specs.Noted.{Notes, is_noted, names_noted};

use super::Asr;
use crate::noted::NameSet;
use lf_base::{Memory, Name, TableId};
use std::alloc::Global;
use std::collections::BTreeMap;

/// Puts the first name into a table's names.
fn note_first(
    alloc: Global,
    tables: &mut BTreeMap<u32, NameSet>,
    table: TableId,
    name: Vec<u8>,
) -> Result<(), Memory>
    requires { names_noted table.0 tables.old.entries ≡ [] }
    ensures ok { OnOk result (Notes table name.items tables.old.entries tables.new.entries) }
    ensures err { OnErr result (tables.new.entries ≡ tables.old.entries) }
{
    let mut names = NameSet::new(alloc);
    names.add(name)?;
    match tables.insert(table.0, names) {
        Ok(_) => {}
        Err(_) => return Err(Memory),
    }
    Ok(())
}

/// Puts a name into a table's names.
fn note(
    alloc: Global,
    tables: &mut BTreeMap<u32, NameSet>,
    table: TableId,
    name: Vec<u8>,
) -> Result<(), Memory>
    ensures ok { OnOk result (Notes table name.items tables.old.entries tables.new.entries) }
    ensures err { OnErr result (tables.new.entries ≡ tables.old.entries) }
{
    if let Some(names) = tables.get_mut(&table.0) {
        return names.add(name);
    }
    note_first(alloc, tables, table, name)
}

/// The bytes of a name, which another owns.
fn bytes_of(alloc: Global, name: &Name) -> Result<Vec<u8>, Memory>
    ensures { IfOk result (λ bytes. bytes.items ≡ name.now) }
{
    Ok(Vec::from_slice(alloc, name.bytes())?)
}

impl Asr {
    /// Notes that a name is ambiguous in a table, whether it was noted or not. It takes time in the logarithm of the
    /// number of names that were noted. It fails only for want of memory, and then nothing is changed.
    pub fn note_ambiguous(&mut self, table: TableId, name: &Name) -> Result<(), Memory>
        ensures ok { OnOk result (Notes table name.now self.old.noted self.new.noted) }
        ensures err { OnErr result (self.new ≡ self.old) }
        ensures rest { self.new ≡ record self.old { noted = self.new.noted } }
    {
        let own = bytes_of(self.alloc, name)?;
        note(self.alloc, &mut self.noted, table, own)
    }

    /// Whether a name was noted as ambiguous in this very table. It takes no memory, and time in the logarithm of the
    /// number of names that were noted, whichever they are.
    pub fn is_ambiguous(&self, table: TableId, name: &Name) -> bool
        ensures { result ≡ is_noted table name.now self.now.noted }
    {
        match self.noted.get(&table.0) {
            Some(names) => names.has(name.bytes()),
            None => false,
        }
    }
}
