//! The tag and the fields of each type and constant (ISO/IEC 1539-1:2018, 7.4).

ghost use Rattle.std.specs.Prelude.{◌≡◌};
ghost use Rattle.asr_nodes.specs.Reading.{elem_node, type_node};
ghost use Rattle.asr_nodes.specs.Shapes.{Shown, shape_text};
ghost use Rattle.asr_nodes.specs.Text.{const_text, len_text, dim_text, type_text, elem_text};

use crate::print::field::{Field, Group, Shape, Thing, bare, one, two};
use type_rules::{Const, Dim, Elem, Len, Ty};

pub(crate) fn const_shape(node: &Const) -> Shape<'_>
    ensures { (r : Shown) → shape_text r result ≡ const_text node.now }
{
    match node {
        Const::IntConst { kind, value } => two(
            b"IntConst",
            Field::Code(*kind),
            Field::Signed(value),
        ),
        Const::LogConst { value } => one(b"LogConst", Field::Code(*value)),
        Const::CharConst { bytes } => one(b"CharConst", Field::Bytes(bytes)),
    }
}

pub(crate) fn elem_shape(node: &Elem) -> Shape<'_>
    ensures { (r : Shown) → shape_text r result ≡ elem_text (elem_node r.reading.symbol node.now) }
{
    match node {
        Elem::Integer { kind } => one(b"Integer", Field::Code(*kind)),
        Elem::Logical => bare(b"Logical"),
        Elem::Character { len } => one(b"Character", Field::One(Thing::Len(len))),
        Elem::Derived { sym } => one(b"Derived", Field::Symbol(*sym)),
    }
}

pub(crate) fn len_shape(node: &Len) -> Shape<'_>
    ensures { (r : Shown) → shape_text r result ≡ len_text node.now }
{
    match node {
        Len::Fixed { n } => one(b"Fixed", Field::Line(*n)),
        Len::Assumed => bare(b"Assumed"),
    }
}

pub(crate) fn dim_shape(node: &Dim) -> Shape<'_>
    ensures { (r : Shown) → shape_text r result ≡ dim_text node.now }
{
    match node {
        Dim::Fixed { lower, extent } => two(b"Fixed", Field::Signed(lower), Field::Line(*extent)),
        Dim::Assumed => bare(b"Assumed"),
    }
}

pub(crate) fn ty_shape(node: &Ty) -> Shape<'_>
    ensures { (r : Shown) → shape_text r result ≡ type_text (type_node r.reading.symbol node.now) }
{
    two(
        b"Type",
        Field::One(Thing::Elem(&node.elem)),
        Field::Many(Group::Dims(&node.dims)),
    )
}
