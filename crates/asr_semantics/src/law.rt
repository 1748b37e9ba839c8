//! Laws of the definitions: each is the contract of a function that does nothing.

ghost use Rattle.std.specs.Prelude.{◌≡◌, ℕ, List, [], ◌∷◌, codes};
ghost use Rattle.lf_base.specs.Near.{IsMonotone};
ghost use Rattle.lf_base.specs.declared.trap.Trap.TheVariants.{IntegerOverflow, ZeroStep};
ghost use Rattle.asr_nodes.specs.declared.tree.UnitTree.{UnitTree};
ghost use Rattle.asr_semantics.specs.Entities.{reached};
ghost use Rattle.asr_semantics.specs.Program.{tree_meaning};
ghost use Rattle.asr_semantics.specs.SmallPrograms.{Writes, Stops, TrapsAt, IsCut, GoesAway, leaves_two, cycles_once, calls_itself, counts_turns_once, two_names, one_copy, stops_early, keeps_value, uses_variable, stops, steps_by_zero, steps_too_far, uses_procedure, in_parts, never_ends, in_order_of_uses};

/// Larger bounds on turns and on calls keep the end of a program with its output, its status and the location of its
/// trap, and never shorten what it writes. What has no rule at some bounds has none at larger ones.
pub fn larger_bounds()
    ensures { (units : List UnitTree) (loaded : List (List ℕ)) (input : List ℕ) → IsMonotone (tree_meaning units loaded input) }
{}

/// Small programs that end as the standard says: a loop that is left from two levels, `cycle`, recursion, a loop whose
/// variable a call changes, two dummies for one variable, a copy, `.and.` that does not need its right operand, a saved
/// variable, a variable of a module under another name, and a stop code.
pub fn small_programs_end()
    ensures leaves_two { Writes leaves_two (codes " 1 1\n 1 2\n") }
    ensures cycles_once { Writes cycles_once (codes " 1\n 3\n 4\n") }
    ensures calls_itself { Writes calls_itself (codes " 6\n") }
    ensures counts_turns_once { Writes counts_turns_once (codes " 34\n") }
    ensures two_names { Writes two_names (codes " 2\n") }
    ensures one_copy { Writes one_copy (codes " 1\n") }
    ensures stops_early { Writes stops_early (codes " 3\n 4\n") }
    ensures keeps_value { Writes keeps_value (codes " 7\n 8\n") }
    ensures uses_variable { Writes uses_variable (codes " 4\n") }
    ensures stops { Stops stops (codes "7") 2 }
{}

/// Small programs that end by a trap: a step of 0, a step behind the last turn that does not fit, a sum in a procedure of
/// another source, and one in an expression that stood in another source before a pass.
pub fn small_programs_trap()
    ensures by_zero { TrapsAt steps_by_zero (codes " \n") ZeroStep (record { source = codes "p.f90"; line = 3 }) }
    ensures too_far { TrapsAt steps_too_far (codes " 2147483646\n 2147483647\n") IntegerOverflow (record { source = codes "p.f90"; line = 3 }) }
    ensures procedure { TrapsAt uses_procedure [] IntegerOverflow (record { source = codes "m.f90"; line = 5 }) }
    ensures in_parts { TrapsAt in_parts (codes " 4 5\n ") IntegerOverflow (record { source = codes "m.f90"; line = 7 }) }
{}

/// Small programs that are cut: a loop at its third turn where two are allowed, and a call at its third depth; and one
/// that calls a procedure of a loaded module.
pub fn small_programs_are_cut()
    ensures turns { IsCut never_ends 2 3 (codes " 1\n 1\n") }
    ensures depth { IsCut calls_itself 5 2 (codes " ") }
    ensures elsewhere { GoesAway uses_procedure (codes "m" ∷ []) [] }
{}

/// A module begins before those that use it.
pub fn modules_in_order()
    ensures { reached in_order_of_uses (codes "p") ≡ codes "b" ∷ codes "a" ∷ codes "p" ∷ [] }
{}
