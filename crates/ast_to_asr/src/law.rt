//! Laws of the definitions: each is the contract of a function that does nothing.

ghost use Rattle.std.specs.Prelude.{◌≡◌, [], ◌∷◌, codes, Ok};
ghost use Rattle.fortran_semantics.specs.SmallSources.{leaves_two, mixes_kinds, does_not_fit, else_if_traps};
ghost use Rattle.std.specs.Prelude.{Some, None};
ghost use Rattle.lf_base.specs.declared.operator.TheConstants.{ADD, DIVIDE, EQ, AND};
ghost use Rattle.lf_base.specs.declared.rule.Rule.TheVariants.{E303, E304, E401, E402, E403, E404, E405, E406, E409, E410, E411, E414, E415, E417};
ghost use Rattle.ast_nodes.specs.declared.declaration.Attribute.TheVariants.{Parameter, Save};
ghost use Rattle.ast_nodes.specs.declared.declaration.TypeSpec.TheVariants.{Integer, Logical};
ghost use Rattle.ast_nodes.specs.declared.expression.Expr.TheVariants.{Int, Binary};
ghost use Rattle.ast_nodes.specs.declared.statement.Statement.TheVariants.{Do, Stop, Exit};
ghost use Rattle.asr_nodes.specs.declared.code.TheConstants.{FALSE};
ghost use Rattle.fortran_semantics.specs.SmallSources.{number, named, call, only_if};
ghost use Rattle.ast_to_asr.specs.Elab.{elab_file};
ghost use Rattle.ast_to_asr.specs.SmallFaults.{Breaks, IsRight, n, one, yes, ratio, with_integer, with_constant, prints, declared, constant, second_named, asks_its_own_statement, asks_an_earlier_statement, hides_a_function, steps, counted_by, assigns, no_type, both_phases, two_lines};
ghost use Rattle.ast_to_asr.specs.SmallTrees.{leaves_two_tree, mixes_kinds_tree, does_not_fit_tree, else_if_traps_tree};

/// Small sources have the trees that the standard's rules give them: loops by their numbers and a step of 1, a Convert where
/// two kinds meet and where a value is assigned, a constant for a named constant and for `huge`, and an If of its own line
/// in the else part for each `else if`.
pub fn small_sources_have_their_trees()
    ensures loops { elab_file (codes "p.f90") 0 leaves_two ≡ Ok (leaves_two_tree ∷ []) }
    ensures kinds { elab_file (codes "p.f90") 0 mixes_kinds ≡ Ok (mixes_kinds_tree ∷ []) }
    ensures assigned { elab_file (codes "p.f90") 0 does_not_fit ≡ Ok (does_not_fit_tree ∷ []) }
    ensures else_if { elab_file (codes "p.f90") 0 else_if_traps ≡ Ok (else_if_traps_tree ∷ []) }
{}

/// Names: each is declared once, by an earlier statement than the one that asks for its value.
pub fn names_are_declared()
    ensures twice { Breaks (second_named n) 3 E303 × IsRight (second_named (codes "m")) }
    ensures never { Breaks (prints (named (codes "m"))) 3 E304 × IsRight (prints (named n)) }
    ensures unit { Breaks (prints (named (codes "p"))) 3 E304 }
    ensures earlier { Breaks asks_its_own_statement 2 E304 × IsRight asks_an_earlier_statement }
    ensures class { Breaks (prints (named (codes "abs"))) 3 E414 }
{}

/// Types of operands, conditions, literals, arguments and what is assigned.
pub fn types_are_asked()
    ensures operands { Breaks (prints (Binary ADD one yes)) 3 E401 × IsRight (prints (Binary ADD one one)) }
    ensures condition { Breaks (with_integer (only_if 3 one (Exit 4 None))) 3 E402 }
    ensures literal { Breaks (prints (number (codes "2147483648"))) 3 E403 × IsRight (prints (Int (codes "2147483648") 8)) }
    ensures subscript { Breaks hides_a_function 3 E404 × IsRight (prints (call (codes "abs") (one ∷ []))) }
    ensures count { Breaks (prints (call (codes "mod") (one ∷ []))) 3 E405 × IsRight (prints (call (codes "mod") (one ∷ one ∷ []))) }
    ensures argument { Breaks (prints (call (codes "mod") (one ∷ yes ∷ []))) 3 E406 }
    ensures kind { Breaks (prints (call (codes "int") (one ∷ number (codes "2") ∷ []))) 3 E406 × IsRight (prints (call (codes "int") (one ∷ number (codes "8") ∷ []))) }
    ensures assigned { Breaks (with_integer (assigns yes)) 4 E401 × IsRight (with_integer (assigns one)) }
    ensures counter { Breaks (counted_by (Integer 8) one) 3 E401 × IsRight (counted_by (Integer 4) one) }
    ensures bound { Breaks (counted_by (Integer 4) yes) 3 E401 × IsRight (counted_by (Integer 4) (Int (codes "1") 8)) }
{}

/// What may be changed, and where loops are left.
pub fn changes_are_asked()
    ensures constant { Breaks (with_constant (assigns one)) 4 E409 }
    ensures constant_of_another_type { Breaks (with_constant (assigns yes)) 4 E401 }
    ensures stepped { Breaks (steps (assigns one)) 4 E410 }
    ensures stepped_twice { Breaks (steps (Do 4 None n one one None [])) 4 E410 }
    ensures left { Breaks (with_integer (Exit 3 None)) 3 E417 × IsRight (steps (Exit 4 None)) }
    ensures named_loop { Breaks (steps (Exit 4 (Some (codes "b")))) 4 E417 × IsRight (steps (Exit 4 (Some (codes "a")))) }
{}

/// What is demanded to be constant, and attributes.
pub fn constants_are_asked()
    ensures constant { Breaks (constant (named n)) 3 E411 × IsRight (constant (call (codes "huge") (named n ∷ []))) }
    ensures traps { Breaks (constant ratio) 3 E415 }
    ensures needed { Breaks (constant (Int (codes "2147483648") 8)) 3 E415 }
    ensures types { Breaks (constant yes) 3 E401 }
    ensures code { Breaks (with_integer (Stop 3 FALSE (Some (named n)))) 3 E411 × IsRight (with_constant (Stop 3 FALSE (Some (named n)))) }
    ensures code_type { Breaks (with_integer (Stop 3 FALSE (Some yes))) 3 E401 }
    ensures twice { Breaks (declared (Save ∷ Save ∷ []) None) 2 E414 × IsRight (declared (Save ∷ []) None) }
    ensures saved { Breaks (declared (Parameter ∷ Save ∷ []) (Some one)) 2 E414 × IsRight (declared (Parameter ∷ []) (Some one)) }
    ensures no_value { Breaks (declared (Parameter ∷ []) None) 2 E414 }
{}

/// Which of several broken rules is told: the declarations come before all statements, then the least line counts, and at one
/// line the least number. A part that breaks a rule has no type.
pub fn one_rule_is_told()
    ensures phases { Breaks both_phases 2 E415 }
    ensures lines { Breaks two_lines 2 E304 }
    ensures parts { Breaks no_type 3 E406 }
{}
