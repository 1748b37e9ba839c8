//! The names in C of values, temporaries, loops and entities.
ghost use Rattle.std.specs.Prelude.{◌≡◌, List, ℕ, [], ◌∷◌, ◌++◌, IfOk, OnOk};
ghost use Rattle.std.specs.Fmt.{decimal};
ghost use Rattle.symtab_arena.specs.Paths.{path_of};
ghost use Rattle.symtab_arena.specs.Scopes.{IsLive};
ghost use Rattle.c_printer.specs.Names.{name_part, name_parts, entity_name, init_name, value_name, temp_name, cycle_label, exit_label};

use asr_nodes::Symbol;
use itoa::Buffer;
use lf_base::{Memory, Name, SymId};
use std::alloc::Global;
use symtab_arena::Arena;

fn append(text: &mut Vec<u8>, piece: &[u8]) -> Result<(), Memory>
    ensures { OnOk result (text.new.items ≡ text.old.items ++ piece.now) }
{
    text.extend_from_slice(piece)?;
    Ok(())
}

fn append_number(text: &mut Vec<u8>, number: u64) -> Result<(), Memory>
    ensures { OnOk result (text.new.items ≡ text.old.items ++ decimal number) }
{
    let mut buffer = Buffer::new();
    append(text, buffer.format(number).as_bytes())
}

// A letter, and a number behind it.
fn numbered(alloc: Global, letter: &[u8], number: u64) -> Result<Name, Memory>
    ensures { IfOk result (λ n. n ≡ letter.now ++ decimal number) }
{
    let mut text = Vec::new(alloc);
    append(&mut text, letter)?;
    append_number(&mut text, number)?;
    Name::new(alloc, text.as_slice())
}

/// The name of the value of this number. It fails only for want of memory.
pub(crate) fn value_name(alloc: Global, number: u64) -> Result<Name, Memory>
    ensures { IfOk result (λ n. n ≡ value_name number) }
{
    numbered(alloc, b"t", number)
}

/// The name of the temporary that the tree knows by this number. It fails only for want of memory.
pub(crate) fn temp_name(alloc: Global, number: u64) -> Result<Name, Memory>
    ensures { IfOk result (λ n. n ≡ temp_name number) }
{
    numbered(alloc, b"r", number)
}

/// The label with which a turn of the loop of this number ends. It fails only for want of memory.
pub(crate) fn cycle_label(alloc: Global, id: u64) -> Result<Name, Memory>
    ensures { IfOk result (λ n. n ≡ cycle_label id) }
{
    numbered(alloc, b"c", id)
}

/// The label behind the loop of this number. It fails only for want of memory.
pub(crate) fn exit_label(alloc: Global, id: u64) -> Result<Name, Memory>
    ensures { IfOk result (λ n. n ≡ exit_label id) }
{
    numbered(alloc, b"e", id)
}

#[tactic(auto, using(crate::proofs::Naming::part_appended))]
fn append_part(text: &mut Vec<u8>, name: &Name) -> Result<(), Memory>
    ensures { OnOk result (text.new.items ≡ text.old.items ++ name_part name.now) }
{
    append(text, b"_")?;
    append_number(text, name.bytes().len() as u64)?;
    append(text, b"_")?;
    append(text, name.bytes())
}

// The names around a live symbol, and its own.
fn append_path(text: &mut Vec<u8>, arena: &Arena<Symbol>, symbol: SymId) -> Result<(), Memory>
    requires { IsLive arena.now symbol }
    ensures { OnOk result (text.new.items ≡ text.old.items ++ name_parts (path_of arena.now symbol)) }
{
    arena.linked();
    match arena.owner(arena.table_of(symbol)) {
        None => append_part(text, arena.name_of(symbol)),
        Some(owner) => {
            append_path(text, arena, owner)?;
            append_part(text, arena.name_of(symbol))
        }
    }
}

// The same of any symbol: one that is not live has no names.
fn append_path_of(text: &mut Vec<u8>, arena: &Arena<Symbol>, symbol: SymId) -> Result<(), Memory>
    ensures { OnOk result (text.new.items ≡ text.old.items ++ name_parts (path_of arena.now symbol)) }
{
    if arena.live(symbol) {
        append_path(text, arena, symbol)
    } else {
        Ok(())
    }
}

/// The name of an entity by its path, which is empty where the symbol is not live. It fails only for want of memory.
pub(crate) fn entity_name(
    alloc: Global,
    arena: &Arena<Symbol>,
    symbol: SymId,
) -> Result<Name, Memory>
    ensures { IfOk result (λ n. n ≡ entity_name (path_of arena.now symbol)) }
{
    let mut text = Vec::new(alloc);
    append(&mut text, b"lf")?;
    append_path_of(&mut text, arena, symbol)?;
    Name::new(alloc, text.as_slice())
}

/// The name of the function that gives the variables of a unit their first values. It fails only for want of memory.
pub(crate) fn init_name(alloc: Global, unit: &Name) -> Result<Name, Memory>
    ensures { IfOk result (λ n. n ≡ init_name unit.now) }
{
    let mut text = Vec::new(alloc);
    append(&mut text, b"lf")?;
    append_part(&mut text, unit)?;
    append(&mut text, b"_init")?;
    Name::new(alloc, text.as_slice())
}

/// The name of a variable of a unit. It fails only for want of memory.
pub(crate) fn variable_name(alloc: Global, unit: &Name, name: &Name) -> Result<Name, Memory>
    ensures { IfOk result (λ n. n ≡ entity_name (unit.now ∷ name.now ∷ [])) }
{
    let mut text = Vec::new(alloc);
    append(&mut text, b"lf")?;
    append_part(&mut text, unit)?;
    append_part(&mut text, name)?;
    Name::new(alloc, text.as_slice())
}
