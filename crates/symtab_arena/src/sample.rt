//! A caller, to show what it has to prove.
ghost use Rattle.std.specs.Prelude.{◌≡◌, ◌≢◌, Some, IfOk};
ghost use Rattle.symtab_arena.specs.Scopes.{next_symbol};

use crate::arena::Arena;
use crate::fault::ArenaFault;
use lf_base::{Name, SymId, TableId};

/// Opens a scope in the root under one name, declares another name in it, and looks the first up
/// from inside: it is the symbol that opened the scope.
pub(crate) fn seen_from_inside(
    arena: &mut Arena<u32>,
    outer: &Name,
    inner: &Name,
) -> Result<Option<SymId>, ArenaFault>
    requires { outer.now ≢ inner.now }
    ensures { IfOk result (λ seen. seen ≡ Some (next_symbol arena.old)) }
{
    arena.linked();
    let (_, scope) = arena.declare_owner(TableId(0), outer, 0)?;
    arena.linked();
    arena.declare(scope, inner, 1)?;
    Ok(arena.lookup_up(scope, outer))
}
