//! Types, constants and operations by value: what every operator, conversion and intrinsic of the
//! profile gives, and when it traps.
#![tactic(auto)]

mod answer;
mod assignment;
mod character;
pub mod code;
mod constant;
mod equality;
mod folding;
mod integer;
pub mod law;
mod matching;
mod scalar;
mod signature;
mod ty;
mod typing;
mod unifying;

pub use assignment::assigned_constant;
pub use code::Intrinsic;
pub use constant::{Const, Op, TypeFault};
pub use equality::type_of_const;
pub use folding::fold;
pub use lf_base::Trap;
pub use lf_base::operator::Operator;
pub use matching::{distinguishable, resolve_borrowed, resolve_generic, same_type};
pub use ty::{Dim, Elem, Len, Ty};
pub use typing::type_of;
pub use unifying::unify;
