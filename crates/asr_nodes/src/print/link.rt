//! Chains of `else if` (ISO/IEC 1539-1:2018, 11.1.8): an `if` whose `else` part is one statement, which may be an `if`
//! again.

ghost use Rattle.std.specs.Prelude.{◌≡◌, ◌<◌, [], ◌∷◌, codes, IfSome};
ghost use Rattle.lf_base.specs.Contents.{joined};
ghost use Rattle.ast_nodes.specs.Prints.{Prints};
ghost use Rattle.asr_nodes.specs.Reading.{stmt_node};
ghost use Rattle.asr_nodes.specs.Shapes.{Shown, shown, thing_text, link_text, closers};
ghost use Rattle.asr_nodes.specs.Text.{stmt_text};

use crate::asr::Asr;
use crate::node::Stmt;
use crate::print::field::{Field, Group, Thing};
use crate::print::piece::{Ended, put};
use lf_base::{Sink, StmtId};

// A longer chain is printed in several, each within the one before.
const MOST_LINKS: u32 = 1 << 31;

// The fields of an `if` up to its `else` part, and the one statement that stands there.
#[derive(Clone, Copy)]
pub(crate) struct Link<'a> {
    pub fields: [Field<'a>; 3],
    pub next: StmtId,
}

fn link_of(node: &Stmt) -> Option<Link<'_>>
    ensures { (r : Shown) → IfSome result (λ link. stmt_text (stmt_node r.reading node.now) ≡ joined (link_text r link.fields ∷ stmt_text (r.reading.stmt link.next) ∷ codes "])" ∷ [])) }
{
    match node {
        Stmt::If {
            line,
            condition,
            then_block,
            else_block,
        } => match else_block.as_slice() {
            [next] => Some(Link {
                fields: [
                    Field::Line(*line),
                    Field::One(Thing::Expr(*condition)),
                    Field::Many(Group::Stmts(then_block)),
                ],
                next: *next,
            }),
            _ => None,
        },
        _ => None,
    }
}

// The next link of a chain of which there were so many.
pub(crate) fn next_link<'a>(asr: &'a Asr, thing: Thing<'_>, links: u32) -> Option<Link<'a>>
    ensures text { IfSome result (λ link. thing_text (shown asr.now) thing.entry ≡ joined (link_text (shown asr.now) link.fields ∷ stmt_text ((shown asr.now).reading.stmt link.next) ∷ codes "])" ∷ [])) }
    ensures more { IfSome result (λ link. links < MOST_LINKS) }
{
    match thing {
        Thing::Stmt(id) if links < MOST_LINKS && asr.has_stmt(id) => link_of(asr.stmt(id)),
        _ => None,
    }
}

// What closes the links of a chain.
#[tactic(auto, using(ast_nodes::proofs::Chains::loops))]
pub(crate) fn put_closers<O: Sink>(before: Ended, out: &mut O, links: u32) -> Ended
    ensures { Prints O.contents O.faults O.may_fail O.takes_memory O.keeps before result out.old out.new (joined (closers links)) }
{
    let mut ended = before;
    for _link in 0..links {
        ended = put(ended, out, b"])");
    }
    ended
}
