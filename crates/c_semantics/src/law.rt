//! Laws of the definitions: each is the contract of a function that does nothing.

ghost use Rattle.std.specs.Prelude.{◌≡◌, ℕ, ◌≤◌, ◌==◌, IsTrue, true, false, List, [], ◌∷◌, ◌++◌, codes};
ghost use Rattle.lf_base.specs.Near.{IsMonotone};
ghost use Rattle.c_nodes.specs.declared.tree.CFile.{CFile};
ghost use Rattle.c_semantics.specs.CMeaning.{CMeaning};
ghost use Rattle.c_semantics.specs.Program.{IsProgram};
ghost use Rattle.c_semantics.specs.Reserved.{is_reserved, is_free_front};
ghost use Rattle.c_semantics.specs.SmallFiles.{returns_number, returns_nothing, returns_too_much, pointer_in_block, pointer_after_block, pointer_after_call, sets_pointer, unset_pointer, own_object, keeps_object, empty_array, call_into_element, declares, declares_library, low_name, static_twice, Unlinked, leads_nowhere, jumps_past_array, label_twice, no_member, no_structure, number_as_structure, undefined_object, unused_object, other_type, defines_again, Writes, IsUndefined, IsCut, EndsWith, file, turns, jumps, structures, wraps, stops_early, zeros, shares, sets, forever, leaves, overflow, int_overflow, by_zero, least_by_minus_one, int32_cast, int_cast, int32_store, unset_read, unset_copy, outside, pointer_outside, outside_member, no_elements, literal_write};

/// Larger bounds keep the end of a C program with its output and its status, and never shorten what it
/// writes.
pub fn larger_bounds()
    ensures { (files : List CFile) (input : List ℕ) → IsMonotone (CMeaning files input) }
{}

/// Loops, jumps, structures, conversions, tests, pointers and objects outside functions, each in a small file that
/// writes what the standard says and ends with status 0, and the status with which `main` ends.
pub fn small_files_end()
    ensures turns { Writes (file turns ∷ []) (codes "aaa") }
    ensures jumps { Writes (file jumps ∷ []) (codes "ab") }
    ensures structures { Writes (file structures ∷ []) (codes "ABC") }
    ensures wraps { Writes (file wraps ∷ []) (codes "A") }
    ensures stops_early { Writes (file stops_early ∷ []) (codes "bc") }
    ensures zeros { Writes (file zeros ∷ []) (codes "AB") }
    ensures shared { Writes (file shares ∷ file sets ∷ []) (codes "AB") }
    ensures pointer { Writes (file pointer_in_block ∷ []) (codes "A") }
    ensures static_pointer { Writes (file sets_pointer ∷ []) (codes "A") }
    ensures static_object { Writes (file keeps_object ∷ file own_object ∷ []) (codes "A") }
    ensures leaves { EndsWith leaves 7 }
    ensures number { EndsWith returns_number 7 }
    ensures nothing { EndsWith returns_nothing 0 }
    ensures cut { IsCut forever 3 (codes "aaa") }
{}

/// What the standard leaves undefined is undefined, each case in a small file.
pub fn undefined_cases()
    ensures overflow { IsUndefined overflow }
    ensures int_overflow { IsUndefined int_overflow }
    ensures by_zero { IsUndefined by_zero }
    ensures least_by_minus_one { IsUndefined least_by_minus_one }
    ensures int32_cast { IsUndefined int32_cast }
    ensures int_cast { IsUndefined int_cast }
    ensures int32_store { IsUndefined int32_store }
    ensures unset_read { IsUndefined unset_read }
    ensures unset_copy { IsUndefined unset_copy }
    ensures outside { IsUndefined outside }
    ensures pointer_outside { IsUndefined pointer_outside }
    ensures outside_member { IsUndefined outside_member }
    ensures no_elements { IsUndefined no_elements }
    ensures literal_write { IsUndefined literal_write }
    ensures after_block { IsUndefined pointer_after_block }
    ensures after_call { IsUndefined pointer_after_call }
    ensures unset_pointer { IsUndefined unset_pointer }
    ensures too_much { IsUndefined returns_too_much }
{}

/// Which small files are one program.
pub fn small_programs()
    ensures turns { IsProgram (file turns ∷ []) }
    ensures jumps { IsProgram (file jumps ∷ []) }
    ensures structures { IsProgram (file structures ∷ []) }
    ensures stops_early { IsProgram (file stops_early ∷ []) }
    ensures zeros { IsProgram (file zeros ∷ []) }
    ensures unused_object { IsProgram (file unused_object ∷ []) }
    ensures shared { IsProgram (file shares ∷ file sets ∷ []) }
    ensures pointer { IsProgram (file sets_pointer ∷ []) }
    ensures static_object { IsProgram (file keeps_object ∷ file own_object ∷ []) }
{}

/// Small files that are no program: each breaks one rule.
pub fn no_programs()
    ensures leads_nowhere { Unlinked (file leads_nowhere ∷ []) }
    ensures jumps_past_array { Unlinked (file jumps_past_array ∷ []) }
    ensures label_twice { Unlinked (file label_twice ∷ []) }
    ensures no_member { Unlinked (file no_member ∷ []) }
    ensures no_structure { Unlinked (file no_structure ∷ []) }
    ensures number_as_structure { Unlinked (file number_as_structure ∷ []) }
    ensures undefined_object { Unlinked (file undefined_object ∷ []) }
    ensures other_type { Unlinked (file shares ∷ file other_type ∷ []) }
    ensures defines_again { Unlinked (file shares ∷ file defines_again ∷ []) }
    ensures empty_array { Unlinked (file empty_array ∷ []) }
    ensures call_into_element { Unlinked (file call_into_element ∷ []) }
    ensures reserved_word { Unlinked (file (declares (codes "for")) ∷ []) }
    ensures reserved_macro { Unlinked (file (declares (codes "EOF")) ∷ []) }
    ensures reserved_function { Unlinked (file declares_library ∷ []) }
    ensures low_name { Unlinked (file low_name ∷ []) }
    ensures static_twice { Unlinked (file static_twice ∷ []) }
{}

/// Names that are not reserved: those that begin as no reserved name does, as `lf_`, `v_`, `p_`, `l_` and `f_`, and those
/// whose second byte is a digit.
pub fn free_names()
    ensures front { (front rest : List ℕ) → is_free_front front ≡ true → is_reserved (front ++ rest) ≡ false }
    ensures numbered { (letter digit : ℕ) (rest : List ℕ) → (letter == 95) ≡ false → 48 ≤ digit → digit ≤ 57 → is_reserved (letter ∷ digit ∷ rest) ≡ false }
    ensures path { IsTrue (is_free_front (codes "lf_")) }
    ensures variable { IsTrue (is_free_front (codes "v_")) }
    ensures dummy { IsTrue (is_free_front (codes "p_")) }
    ensures length { IsTrue (is_free_front (codes "l_")) }
    ensures component { IsTrue (is_free_front (codes "f_")) }
{}
