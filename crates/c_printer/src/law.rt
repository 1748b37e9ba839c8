//! Laws of the definitions: each is the contract of a function that does nothing.

ghost use Rattle.std.specs.Prelude.{◌≡◌, true, [], ◌∷◌};
ghost use Rattle.std.specs.List.{list_all};
ghost use Rattle.c_printer.specs.Files.{unit_items};
ghost use Rattle.c_printer.specs.Scalar.{is_scalar_unit};
ghost use Rattle.c_printer.specs.SmallUnits.{prints_one, prints_one_c, counts, counts_c, chooses, chooses_c, stops_early, stops_early_c, mixes_kinds, mixes_kinds_c, begins, begins_c, leaves_outer, leaves_outer_c, ends, ends_c, refers, refers_c, keeps, keeps_c};

/// Small main programs have these items behind those of the prelude: values in the order of their evaluation, each check
/// behind its operation and its line in front of it, loops with their labels and their steps, a right operand that is
/// computed where it is needed, variables with their first values, and stop codes modulo 256.
pub fn small_programs_have_their_c()
    ensures scalar { list_all is_scalar_unit (prints_one ∷ counts ∷ chooses ∷ stops_early ∷ mixes_kinds ∷ begins ∷ leaves_outer ∷ ends ∷ refers ∷ keeps ∷ []) ≡ true }
    ensures one_print { unit_items (prints_one ∷ []) ≡ prints_one_c }
    ensures counted { unit_items (counts ∷ []) ≡ counts_c }
    ensures else_if { unit_items (chooses ∷ []) ≡ chooses_c }
    ensures early { unit_items (stops_early ∷ []) ≡ stops_early_c }
    ensures kinds { unit_items (mixes_kinds ∷ []) ≡ mixes_kinds_c }
    ensures first_values { unit_items (begins ∷ []) ≡ begins_c }
    ensures outer { unit_items (leaves_outer ∷ []) ≡ leaves_outer_c }
    ensures ends { unit_items (ends ∷ []) ≡ ends_c }
    ensures intrinsics { unit_items (refers ∷ []) ≡ refers_c }
    ensures temporaries { unit_items (keeps ∷ []) ≡ keeps_c }
{}
