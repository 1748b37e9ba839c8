use crate::expression::Expr;
use lf_base::Name;
use sqlite_items::{Boxed, Items};

/// A statement of the specification part (ISO/IEC 1539-1:2018, R504).
#[derive(Drop)]
pub enum Decl {
    /// `use`
    Use {
        used: UseStmt,
    },
    /// `implicit none`
    ImplicitNone {
        line: u32,
    },
    /// `private` or `public`, of all names where there are none.
    Access {
        line: u32,
        is_private: u8,
        names: Items<Name>,
    },
    /// Variables, parameters or dummies.
    Variables {
        vars: Vars,
    },
    /// A derived type with its components; its access is a code.
    TypeDef {
        line: u32,
        name: Name,
        access: u8,
        components: Items<Vars>,
    },
    /// A generic name and its specifics.
    Interface {
        line: u32,
        name: Name,
        names: Items<Name>,
    },
}

/// `use M` (14.2.2). Where `only` is 1 the names of the list alone are meant; a name of an `only` list that is not
/// renamed is its own local name.
#[derive(Drop)]
pub struct UseStmt {
    pub line: u32,
    pub module: Name,
    pub only: u8,
    pub renames: Items<Rename>,
}

/// `local => original`
#[derive(Drop)]
pub struct Rename {
    pub local: Name,
    pub original: Name,
}

/// A type declaration (8.2): the type, its attributes and the entities.
#[derive(Drop)]
pub struct Vars {
    pub line: u32,
    pub type_spec: TypeSpec,
    pub attributes: Items<Attribute>,
    pub entities: Items<Entity>,
}

/// A type (7.3.2).
#[derive(Drop)]
pub enum TypeSpec {
    /// `integer`, with its kind 4 or 8.
    Integer { kind: u8 },
    /// `logical`
    Logical,
    /// `character`, with its length where one is written.
    Character { length: Option<Length> },
    /// `type(T)`
    Derived { name: Name },
}

/// The length of a character type (7.4.4.2).
#[derive(Drop)]
pub enum Length {
    /// `*`
    Star,
    /// An expression.
    Given { value: Boxed<Expr> },
}

/// An attribute (8.5).
#[derive(Drop)]
pub enum Attribute {
    /// `parameter`
    Parameter,
    /// `save`
    Save,
    /// `private`
    Private,
    /// `public`
    Public,
    /// `dimension(bounds)`
    Dimension { bounds: Items<Bound> },
    /// `intent`, by its code.
    Intent { code: u8 },
}

/// A declared entity (R803): its name, its bounds and its initial value.
#[derive(Drop)]
pub struct Entity {
    pub name: Name,
    pub bounds: Items<Bound>,
    pub init: Option<Expr>,
}

/// The bounds of a dimension (8.5.8): `upper`, `lower:upper`, or `:` without either.
#[derive(Drop)]
pub struct Bound {
    pub lower: Option<Expr>,
    pub upper: Option<Expr>,
}
