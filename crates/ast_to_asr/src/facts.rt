//! What is told of an expression that breaks no rule.

use crate::names::ScalarType;
use lf_base::SymId;

/// The facts of an expression (ISO/IEC 1539-1:2018, 10.1): its type, the kind that it writes as a literal, the variable that
/// it designates, and whether it is a constant expression (10.1.12).
#[derive(Clone, Copy, Debug, PartialEq, Eq)]
pub struct Facts {
    pub ty: ScalarType,
    /// 4 or 8, where the expression is this literal without a suffix.
    pub writes: Option<u8>,
    /// The symbol of the variable, where the expression is a name of one, without parentheses.
    pub variable: Option<SymId>,
    pub is_constant: bool,
}
