//! What is printed of a node: its tag and its fields in order.

ghost use Rattle.std.specs.Prelude.{◌≡◌, [], ◌∷◌};
ghost use Rattle.asr_nodes.specs.Shapes.{Shown, shape_text, node_text};

use crate::ids::ExprIds;
use crate::node::{ArrayItem, Case, CaseRange, PrintItem, SectionPart};
use lf_base::{ExprId, Name, StmtId, SymId, TableId};
use sqlite_items::Items;
use type_rules::{Const, Dim, Elem, Len, Ty};

// What is printed as a node.
#[derive(Clone, Copy)]
pub(crate) enum Thing<'a> {
    Expr(ExprId),
    Stmt(StmtId),
    Part(&'a SectionPart),
    Value(&'a ArrayItem),
    Output(&'a PrintItem),
    Case(&'a Case),
    Range(&'a CaseRange),
    Const(&'a Const),
    Elem(&'a Elem),
    Len(&'a Len),
    Ty(&'a Ty),
    Dim(&'a Dim),
    Symbol(SymId),
}

// A list of nodes.
#[derive(Clone, Copy)]
pub(crate) enum Group<'a> {
    Exprs(&'a ExprIds),
    Stmts(&'a Items<StmtId>),
    Parts(&'a Items<SectionPart>),
    Values(&'a Items<ArrayItem>),
    Outputs(&'a Items<PrintItem>),
    Cases(&'a Items<Case>),
    Ranges(&'a Items<CaseRange>),
    Inits(&'a Items<ExprId>),
    Dims(&'a Items<Dim>),
    // The symbols of a table.
    Table(TableId),
}

// One field of a node.
#[derive(Clone, Copy)]
pub(crate) enum Field<'a> {
    Code(u8),
    Line(u32),
    Number(u64),
    Signed(&'a i64),
    Symbol(SymId),
    Bytes(&'a Items<u8>),
    Word(&'a Name),
    One(Thing<'a>),
    Maybe(Option<ExprId>),
    Many(Group<'a>),
    // Behind the last field.
    End,
    Symbols(&'a Items<SymId>),
    MaybeSymbol(Option<SymId>),
}

// No node has more fields.
const FIELDS: usize = 7;

// A node's tag and its fields.
#[derive(Clone, Copy)]
pub(crate) struct Shape<'a> {
    pub tag: &'static [u8],
    pub fields: [Field<'a>; FIELDS],
}

// A node of no field.
#[tactic(auto, unfolding(lf_base::specs::Contents::joined))]
pub(crate) fn bare<'a>(tag: &'static [u8]) -> Shape<'a>
    ensures { (r : Shown) → shape_text r result ≡ node_text r tag.now ([]) }
{
    Shape {
        tag,
        fields: [
            Field::End,
            Field::End,
            Field::End,
            Field::End,
            Field::End,
            Field::End,
            Field::End,
        ],
    }
}

// A node of one field.
#[tactic(auto, unfolding(lf_base::specs::Contents::joined))]
pub(crate) fn one<'a>(tag: &'static [u8], a: Field<'a>) -> Shape<'a>
    ensures { (r : Shown) → shape_text r result ≡ node_text r tag.now (a.entry ∷ []) }
{
    Shape {
        tag,
        fields: [
            a,
            Field::End,
            Field::End,
            Field::End,
            Field::End,
            Field::End,
            Field::End,
        ],
    }
}

// A node of two fields.
#[tactic(auto, unfolding(lf_base::specs::Contents::joined))]
pub(crate) fn two<'a>(tag: &'static [u8], a: Field<'a>, b: Field<'a>) -> Shape<'a>
    ensures { (r : Shown) → shape_text r result ≡ node_text r tag.now (a.entry ∷ b.entry ∷ []) }
{
    Shape {
        tag,
        fields: [
            a,
            b,
            Field::End,
            Field::End,
            Field::End,
            Field::End,
            Field::End,
        ],
    }
}

// A node of three.
#[tactic(auto, unfolding(lf_base::specs::Contents::joined))]
pub(crate) fn three<'a>(tag: &'static [u8], a: Field<'a>, b: Field<'a>, c: Field<'a>) -> Shape<'a>
    ensures { (r : Shown) → shape_text r result ≡ node_text r tag.now (a.entry ∷ b.entry ∷ c.entry ∷ []) }
{
    Shape {
        tag,
        fields: [a, b, c, Field::End, Field::End, Field::End, Field::End],
    }
}

// A node of four.
#[tactic(auto, unfolding(lf_base::specs::Contents::joined))]
pub(crate) fn four<'a>(
    tag: &'static [u8],
    a: Field<'a>,
    b: Field<'a>,
    c: Field<'a>,
    d: Field<'a>,
) -> Shape<'a>
    ensures { (r : Shown) → shape_text r result ≡ node_text r tag.now (a.entry ∷ b.entry ∷ c.entry ∷ d.entry ∷ []) }
{
    Shape {
        tag,
        fields: [a, b, c, d, Field::End, Field::End, Field::End],
    }
}

// A node of five.
#[tactic(auto, unfolding(lf_base::specs::Contents::joined))]
pub(crate) fn five<'a>(
    tag: &'static [u8],
    a: Field<'a>,
    b: Field<'a>,
    c: Field<'a>,
    d: Field<'a>,
    e: Field<'a>,
) -> Shape<'a>
    ensures { (r : Shown) → shape_text r result ≡ node_text r tag.now (a.entry ∷ b.entry ∷ c.entry ∷ d.entry ∷ e.entry ∷ []) }
{
    Shape {
        tag,
        fields: [a, b, c, d, e, Field::End, Field::End],
    }
}

// A node of six.
#[tactic(auto, unfolding(lf_base::specs::Contents::joined))]
pub(crate) fn six<'a>(
    tag: &'static [u8],
    a: Field<'a>,
    b: Field<'a>,
    c: Field<'a>,
    d: Field<'a>,
    e: Field<'a>,
    f: Field<'a>,
) -> Shape<'a>
    ensures { (r : Shown) → shape_text r result ≡ node_text r tag.now (a.entry ∷ b.entry ∷ c.entry ∷ d.entry ∷ e.entry ∷ f.entry ∷ []) }
{
    Shape {
        tag,
        fields: [a, b, c, d, e, f, Field::End],
    }
}

// A node of seven.
#[tactic(auto, unfolding(lf_base::specs::Contents::joined))]
pub(crate) fn seven<'a>(
    tag: &'static [u8],
    a: Field<'a>,
    b: Field<'a>,
    c: Field<'a>,
    d: Field<'a>,
    e: Field<'a>,
    f: Field<'a>,
    g: Field<'a>,
) -> Shape<'a>
    ensures { (r : Shown) → shape_text r result ≡ node_text r tag.now (a.entry ∷ b.entry ∷ c.entry ∷ d.entry ∷ e.entry ∷ f.entry ∷ g.entry ∷ []) }
{
    Shape {
        tag,
        fields: [a, b, c, d, e, f, g],
    }
}
