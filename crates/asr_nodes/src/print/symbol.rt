//! The tag and the fields of each symbol that is no unit, its name in front (ISO/IEC 1539-1:2018, 19.3).

ghost use Rattle.std.specs.Prelude.{◌≡◌, false, None, IfSome};
ghost use Rattle.std.specs.Option.{option_map_or};
ghost use Rattle.asr_nodes.specs.Nodes.{Nodes};
ghost use Rattle.asr_nodes.specs.Shapes.{shown, shape_text};
ghost use Rattle.asr_nodes.specs.Symbols.{is_root, table_in};
ghost use Rattle.asr_nodes.specs.Text.{stmt_text, symbol_text};
ghost use Rattle.asr_nodes.specs.Units.{symbol_node, symbol_trees};
ghost use Rattle.asr_nodes.specs.declared.tree.StmtTree.TheVariants as stmt_tree;

use crate::asr::Asr;
use crate::node::Symbol;
use crate::print::field::{Field, Group, Shape, Thing, four, seven, six, three};
use crate::print::stmt::no_stmt;
use lf_base::{Name, SymId};

// A symbol that owns no table.
fn plain_shape<'a>(name: &'a Name, symbol: &'a Symbol) -> Shape<'a>
    requires { table_in symbol.now ≡ None }
    ensures { (a : Nodes) → shape_text (shown a) result ≡ option_map_or symbol_text (symbol_node a (symbol_trees a) name.now symbol.now) (stmt_text (stmt_tree.End 0)) }
{
    match symbol {
        Symbol::Variable {
            access,
            ty,
            storage,
            intent,
            init,
        } => six(
            b"Variable",
            Field::Word(name),
            Field::Code(*access),
            Field::One(Thing::Ty(ty)),
            Field::Code(*storage),
            Field::Code(*intent),
            Field::Many(Group::Inits(init)),
        ),
        Symbol::Generic { access, specifics } => three(
            b"Generic",
            Field::Word(name),
            Field::Code(*access),
            Field::Symbols(specifics),
        ),
        Symbol::External {
            access,
            module,
            original,
        } => four(
            b"External",
            Field::Word(name),
            Field::Code(*access),
            Field::Word(module),
            Field::Word(original),
        ),
        _ => no_stmt(),
    }
}

fn entity_shape<'a>(asr: &Asr, name: &'a Name, symbol: &'a Symbol) -> Shape<'a>
    requires { IfSome (table_in symbol.now) (λ table. is_root table ≡ false) }
    ensures { shape_text (shown asr.now) result ≡ option_map_or symbol_text (symbol_node asr.now (symbol_trees asr.now) name.now symbol.now) (stmt_text (stmt_tree.End 0)) }
{
    asr.sound();
    asr.arena().linked();
    match symbol {
        Symbol::Function {
            access,
            dummies,
            result,
            simple,
            table,
            body,
        } => seven(
            b"Function",
            Field::Word(name),
            Field::Code(*access),
            Field::Symbols(dummies),
            Field::MaybeSymbol(*result),
            Field::Code(*simple),
            Field::Many(Group::Table(*table)),
            Field::Many(Group::Stmts(body)),
        ),
        Symbol::Struct { access, table } => three(
            b"Struct",
            Field::Word(name),
            Field::Code(*access),
            Field::Many(Group::Table(*table)),
        ),
        Symbol::Program { .. } | Symbol::Module { .. } => no_stmt(),
        Symbol::Variable { .. } | Symbol::Generic { .. } | Symbol::External { .. } => plain_shape(
            name, symbol,
        ),
    }
}

pub(crate) fn symbol_shape(asr: &Asr, id: SymId) -> Shape<'_>
    ensures { shape_text (shown asr.now) result ≡ (shown asr.now).entity id }
{
    let arena = asr.arena();
    arena.linked();
    if arena.live(id) {
        entity_shape(asr, arena.name_of(id), asr.symbol(id))
    } else {
        no_stmt()
    }
}
