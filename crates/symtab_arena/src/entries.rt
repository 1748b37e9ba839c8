//! Lists in which a thing stands at its number, or nothing does.
ghost use Rattle.std.specs.Prelude.{◌≡◌, ◌<◌, Some, None, OnOk, slice_set, vec_len, vec_capacity};
ghost use Rattle.std.specs.Option.{option_copied};
ghost use Rattle.symtab_arena.specs.Entries.{entry_at, IsThere};

use lf_base::Memory;

/// What stands at a number.
pub(crate) fn entry<X>(entries: &[Option<X>], number: u32) -> Option<&X>
    ensures { option_copied result ≡ entry_at entries.now number }
{
    match entries.get(number as usize) {
        Some(Some(x)) => Some(x),
        _ => None,
    }
}

/// The thing that is known to stand at a number.
pub(crate) fn there<X>(entries: &[Option<X>], number: u32) -> &X
    requires { IsThere entries.now number }
    ensures { entry_at entries.now number ≡ Some result.now }
{
    entry(entries, number).unwrap()
}

/// Takes out the thing that is known to stand at a number.
pub(crate) fn take<X>(entries: &mut Vec<Option<X>>, number: u32) -> X
    requires { IsThere entries.old.items number }
    ensures taken { entry_at entries.old.items number ≡ Some result }
    ensures left { entries.new.items ≡ slice_set entries.old.items number None }
{
    entries[number as usize].take().unwrap()
}

/// Makes room for one more.
pub(crate) fn reserve<X>(entries: &mut Vec<Option<X>>) -> Result<(), Memory>
    ensures same { entries.new.items ≡ entries.old.items }
    ensures room { OnOk result (vec_len entries.new < vec_capacity entries.new) }
{
    match entries.reserve(1) {
        Ok(()) => Ok(()),
        Err(_) => Err(Memory),
    }
}
