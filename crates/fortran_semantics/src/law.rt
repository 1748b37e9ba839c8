//! Laws of the definitions: each is the contract of a function that does nothing.

ghost use Rattle.std.specs.Prelude.{ℕ, List, [], ◌∷◌, codes};
ghost use Rattle.lf_base.specs.Near.{IsMonotone};
ghost use Rattle.lf_base.specs.declared.trap.Trap.TheVariants.{IntegerOverflow, DivisionByZero};
ghost use Rattle.ast_nodes.specs.declared.file.File.{File};
ghost use Rattle.fortran_semantics.specs.Meaning.{fortran_meaning};
ghost use Rattle.fortran_semantics.specs.SmallSources.{Ends, TrapsAt, IsCut, leaves_two, cycles_once, mixes_kinds, stops_early, ends_in_error, does_not_fit, else_if_traps, never_ends};

/// A larger bound on turns keeps the end of a program with its output, its status and the location of its trap, and never
/// shortens what it writes.
pub fn larger_bounds()
    ensures { (source : List ℕ) (file : File) (input : List ℕ) → IsMonotone (fortran_meaning source file input) }
{}

/// Small sources that end as the standard says: a loop that is left from two levels by its name, `cycle`, operands of two
/// kinds with a named constant, `huge` and `int`, `.and.` and `.or.` that do not need their right operands, and `error stop`.
pub fn small_sources_end()
    ensures leaves_two { Ends leaves_two (codes " 1 1\n 1 2\n") 0 }
    ensures cycles_once { Ends cycles_once (codes " 1\n 3\n 4\n") 0 }
    ensures mixes_kinds { Ends mixes_kinds (codes " 2147483650 2147483647 2147483645\n") 0 }
    ensures stops_early { Ends stops_early (codes " T\n") 0 }
    ensures ends_in_error { Ends ends_in_error (codes "-3") 1 }
{}

/// Small sources that end by a trap: a value that does not fit the variable's kind, and the condition of an `else if`, which
/// has its own line; and a loop that is cut at its third turn where two are allowed.
pub fn small_sources_trap()
    ensures fit { TrapsAt does_not_fit (codes " \n") IntegerOverflow 4 }
    ensures condition { TrapsAt else_if_traps [] DivisionByZero 4 }
    ensures turns { IsCut never_ends 2 (codes " 1\n 1\n") }
{}
