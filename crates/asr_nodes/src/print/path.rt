//! The path of a symbol from its unit, printed name by name (ISO/IEC 1539-1:2018, 19.1).

ghost use Rattle.std.specs.Prelude.{◌≡◌, [], ◌∷◌, codes, map, option_map};
ghost use Rattle.lf_base.specs.Contents.{joined};
ghost use Rattle.ast_nodes.specs.Node.{behind_blank, optional};
ghost use Rattle.ast_nodes.specs.Prints.{Prints};
ghost use Rattle.symtab_arena.specs.Paths.{path_of};
ghost use Rattle.symtab_arena.specs.Scopes.{IsLive};
ghost use Rattle.asr_nodes.specs.Shapes.{front_of};
ghost use Rattle.asr_nodes.specs.Text.{path_text, paths_text};

use crate::asr::Asr;
use crate::node::Symbol;
use crate::print::piece::{Ended, put, put_missing};
use lf_base::{Name, Sink, SymId};
use symtab_arena::Arena;

// A name and the point behind it.
#[tactic(auto, using(ast_nodes::proofs::Chains::chains))]
fn put_pointed<O: Sink>(before: Ended, out: &mut O, name: &Name) -> Ended
    ensures { Prints O.contents O.faults O.may_fail O.takes_memory O.keeps before result out.old out.new (joined (name.now ∷ codes "." ∷ [])) }
{
    let ended = put(before, out, name.bytes());
    put(ended, out, b".")
}

// The path of a live symbol with a point behind each name.
fn put_front<O: Sink>(before: Ended, out: &mut O, arena: &Arena<Symbol>, symbol: SymId) -> Ended
    requires { IsLive arena.now symbol }
    ensures { Prints O.contents O.faults O.may_fail O.takes_memory O.keeps before result out.old out.new (front_of (path_of arena.now symbol)) }
{
    arena.linked();
    match arena.owner(arena.table_of(symbol)) {
        None => before,
        Some(owner) => {
            let ended = put_front(before, out, arena, owner);
            put_pointed(ended, out, arena.name_of(symbol))
        }
    }
}

// The path of a live symbol.
#[tactic(auto, using(ast_nodes::proofs::Chains::chains))]
fn put_names<O: Sink>(before: Ended, out: &mut O, arena: &Arena<Symbol>, symbol: SymId) -> Ended
    requires { IsLive arena.now symbol }
    ensures { Prints O.contents O.faults O.may_fail O.takes_memory O.keeps before result out.old out.new (path_text (path_of arena.now symbol)) }
{
    arena.linked();
    match arena.owner(arena.table_of(symbol)) {
        None => before,
        Some(owner) => {
            let ended = put_front(before, out, arena, owner);
            put(ended, out, arena.name_of(symbol).bytes())
        }
    }
}

// No name where the symbol is not live.
fn put_live<O: Sink>(before: Ended, out: &mut O, arena: &Arena<Symbol>, symbol: SymId) -> Ended
    ensures { Prints O.contents O.faults O.may_fail O.takes_memory O.keeps before result out.old out.new (path_text (path_of arena.now symbol)) }
{
    if arena.live(symbol) {
        put_names(before, out, arena, symbol)
    } else {
        before
    }
}

// Behind a blank.
#[tactic(auto, using(ast_nodes::proofs::Chains::chains))]
pub(crate) fn put_path<O: Sink>(before: Ended, out: &mut O, asr: &Asr, symbol: SymId) -> Ended
    ensures { Prints O.contents O.faults O.may_fail O.takes_memory O.keeps before result out.old out.new (behind_blank (path_text (path_of asr.now.scopes symbol))) }
{
    let ended = put(before, out, b" ");
    put_live(ended, out, asr.arena(), symbol)
}

// A symbol that may be missing, behind a blank.
pub(crate) fn put_maybe_path<O: Sink>(
    before: Ended,
    out: &mut O,
    asr: &Asr,
    symbol: Option<SymId>,
) -> Ended
    ensures { Prints O.contents O.faults O.may_fail O.takes_memory O.keeps before result out.old out.new (behind_blank (optional (option_map path_text (option_map (path_of asr.now.scopes) symbol)))) }
{
    match symbol {
        Some(symbol) => put_path(before, out, asr, symbol),
        None => put_missing(before, out),
    }
}

// A path of a list, behind what stands in front of it.
#[tactic(auto, using(ast_nodes::proofs::Chains::chains))]
fn put_led_path<O: Sink>(before: Ended, out: &mut O, asr: &Asr, lead: &[u8], symbol: SymId) -> Ended
    ensures { Prints O.contents O.faults O.may_fail O.takes_memory O.keeps before result out.old out.new (joined (lead.now ∷ path_text (path_of asr.now.scopes symbol) ∷ [])) }
{
    let ended = put(before, out, lead);
    put_live(ended, out, asr.arena(), symbol)
}

// The paths of symbols, in brackets behind a blank.
#[tactic(auto, using(ast_nodes::proofs::Chains::lists))]
pub(crate) fn put_paths<O: Sink>(before: Ended, out: &mut O, asr: &Asr, symbols: &[SymId]) -> Ended
    ensures { Prints O.contents O.faults O.may_fail O.takes_memory O.keeps before result out.old out.new (behind_blank (paths_text (map (path_of asr.now.scopes) symbols.now))) }
{
    let mut ended = put(before, out, b" [");
    let mut lead: &[u8] = b"";
    for symbol in symbols {
        ended = put_led_path(ended, out, asr, lead, *symbol);
        lead = b" ";
    }
    put(ended, out, b"]")
}
