//! Laws of the definitions: each is the contract of a function that does nothing.
ghost use Rattle.std.specs.Prelude.{◌≡◌, Some, codes};
ghost use Rattle.asr_nodes.specs.Examples.{numbers, program, home, selection};
ghost use Rattle.asr_nodes.specs.Units.{unit_tree};
ghost use Rattle.symtab_arena.specs.Scopes.{symbol_id};
ghost use Rattle.asr_nodes.specs.Text.{stmt_text, unit_text};

/// The texts of small trees.
pub fn small_texts()
    ensures program { unit_text program ≡ codes "(Program p \"p1.f90\" [] [\n] [(Print 2 0 0 [(Value (Binary 0 (IntConst 4 2) (Binary 2 (IntConst 4 3) (IntConst 4 4))))])])\n" }
    ensures home { unit_text home ≡ codes "(Module m \"m.f90\" [n] [\n(Function s 0 [] - 0 [(Variable x 1 (Type (Integer 4) [(Fixed -1 3)]) 0 0 [])] [(Assign 5 (Section (Var s.x) [(At (IntConst 4 1)) (Triple - - -)]) (IntConst 4 0))])\n])\n" }
    ensures selection { stmt_text selection ≡ codes "(Select 3 (Var s.x) [(Case [(Between (IntConst 4 1) (IntConst 4 2))] [(Return 4)])] [])" }
{}

/// A small program by numbers stands for its tree.
pub fn small_program_is_read()
    ensures { unit_tree numbers (symbol_id 0) ≡ Some program }
{}
