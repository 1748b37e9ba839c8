//! Program units: a line of its own for each symbol.

ghost use Rattle.std.specs.Prelude.{[], ◌∷◌, ◌≡◌, ◌<◌, map, codes, slice_get, Some, length};
ghost use Rattle.lf_base.specs.Contents.{joined};
ghost use Rattle.ast_nodes.specs.Node.{behind_blank, listed};
ghost use Rattle.ast_nodes.specs.Prints.{Prints};
ghost use Rattle.asr_nodes.specs.Shapes.{shown, entity_text, entity_lines};
ghost use Rattle.asr_nodes.specs.Text.{unit_front};
ghost use Rattle.asr_nodes.specs.Units.{IsUnit, text_of_unit};

use crate::asr::Asr;
use crate::node::Symbol;
use crate::print::field::{Group, Thing};
use crate::print::node::{put_group, put_thing};
use crate::print::piece::{Ended, put, put_quoted, put_tag, put_word};
use lf_base::{Name, Sink, SymId, TableId};
use sqlite_items::Items;

#[tactic(auto, using(ast_nodes::proofs::Chains::chains))]
fn put_led_name<O: Sink>(before: Ended, out: &mut O, lead: &[u8], name: &Name) -> Ended
    ensures { Prints O.contents O.faults O.may_fail O.takes_memory O.keeps before result out.old out.new (joined (lead.now ∷ name.now ∷ [])) }
{
    let ended = put(before, out, lead);
    put(ended, out, name.bytes())
}

// The names of modules, in brackets behind a blank.
#[tactic(auto, using(ast_nodes::proofs::Chains::lists))]
fn put_names<O: Sink>(before: Ended, out: &mut O, names: &[Name]) -> Ended
    ensures { Prints O.contents O.faults O.may_fail O.takes_memory O.keeps before result out.old out.new (behind_blank (listed names.now)) }
{
    let mut ended = put(before, out, b" [");
    let mut lead: &[u8] = b"";
    for name in names {
        ended = put_led_name(ended, out, lead, name);
        lead = b" ";
    }
    put(ended, out, b"]")
}

// The head of a unit.
#[tactic(auto, using(ast_nodes::proofs::Chains::chains))]
fn put_front<O: Sink>(
    before: Ended,
    out: &mut O,
    tag: &[u8],
    name: &Name,
    source: &Items<u8>,
    deps: &Items<Name>,
) -> Ended
    ensures { Prints O.contents O.faults O.may_fail O.takes_memory O.keeps before result out.old out.new (unit_front tag.now name.now source.now deps.now) }
{
    let ended = put_tag(before, out, tag);
    let ended = put_word(ended, out, name.bytes());
    let ended = put_quoted(ended, out, source.as_slice());
    let ended = put_names(ended, out, deps.as_slice());
    put(ended, out, b" [\n")
}

#[tactic(auto, using(ast_nodes::proofs::Chains::chains))]
fn put_symbol_line<O: Sink>(before: Ended, out: &mut O, asr: &Asr, symbol: SymId) -> Ended
    ensures { Prints O.contents O.faults O.may_fail O.takes_memory O.keeps before result out.old out.new (joined (entity_text asr.now symbol ∷ codes "\n" ∷ [])) }
{
    let ended = put_thing(before, out, asr, Thing::Symbol(symbol));
    put(ended, out, b"\n")
}

// The symbols of a table, each on a line of its own.
#[tactic(auto, using(ast_nodes::proofs::Chains::loops))]
fn put_lines<O: Sink>(before: Ended, out: &mut O, asr: &Asr, table: TableId) -> Ended
    ensures { Prints O.contents O.faults O.may_fail O.takes_memory O.keeps before result out.old out.new (joined (entity_lines asr.now table)) }
{
    let mut ended = before;
    for place in 0..asr.arena().table_len(table) {
        ended = put_symbol_line(ended, out, asr, asr.arena().nth(table, place));
    }
    ended
}

pub(crate) fn put_unit<O: Sink>(before: Ended, out: &mut O, asr: &Asr, unit: SymId) -> Ended
    requires { IsUnit asr.now unit }
    ensures { Prints O.contents O.faults O.may_fail O.takes_memory O.keeps before result out.old out.new (text_of_unit asr.now unit) }
{
    asr.sound();
    let arena = asr.arena();
    arena.linked();
    let name = arena.name_of(unit);
    match asr.symbol(unit) {
        Symbol::Program {
            source,
            deps,
            table,
            body,
        } => {
            let ended = put_front(before, out, b"Program", name, source, deps);
            let ended = put_lines(ended, out, asr, *table);
            let ended = put(ended, out, b"]");
            let ended = put_group(ended, out, asr, Group::Stmts(body));
            put(ended, out, b")\n")
        }
        Symbol::Module {
            source,
            deps,
            table,
        } => {
            let ended = put_front(before, out, b"Module", name, source, deps);
            let ended = put_lines(ended, out, asr, *table);
            put(ended, out, b"])\n")
        }
        _ => before,
    }
}
