//! Laws of the definitions: each is the contract of a function that does nothing.

ghost use Rattle.fortran_link.specs.Claims.{ExpressionsAgree, AssignmentsAgree};

/// Each expression that breaks no rule does what its tree does, from every state in which each variable holds a value of its
/// declared type, at every bound: it goes on in the same later state with the same value, which has the expression's type, or
/// ends in the same way with the same output, a trap at the same place; and neither is ever stuck (ISO/IEC 1539-1:2018, 10.1
/// and 16.9).
pub fn expressions_agree()
    ensures { ExpressionsAgree }
{}

/// Each assignment that breaks no rule does what its tree does, in the same sense: the value is converted to the variable's kind
/// and stored, each variable keeps its type, and a value that does not fit traps at the statement's line (ISO/IEC 1539-1:2018,
/// 10.2.1).
pub fn assignments_agree()
    ensures { AssignmentsAgree }
{}
