//! Laws of the definitions: each is the contract of a function that does nothing. What is said of a call of the prelude's
//! functions holds from some turns and depth on; with fewer the call is cut, and what was written is a front.

ghost use Rattle.std.specs.Prelude.{◌≡◌, List, [], ◌++◌, IsTrue, codes, pos, negsuc, ◌+ℤ◌, ◌-ℤ◌, ◌*ℤ◌, None};
ghost use Rattle.std.specs.Fmt.{signed_decimal};
ghost use Rattle.std.specs.List.{list_all};
ghost use Rattle.lf_base.specs.Contents.{joined};
ghost use Rattle.lf_base.specs.Outcome.{Ended, written};
ghost use Rattle.lf_base.specs.Acts.{Stopped};
ghost use Rattle.lf_base.specs.declared.trap.Trap.TheVariants.{IntegerOverflow};
ghost use Rattle.c_nodes.specs.declared.tree.CItem.{CItem};
ghost use Rattle.c_nodes.specs.Grammar.{is_item, is_external};
ghost use Rattle.c_nodes.specs.Text.{item_texts, file_text};
ghost use Rattle.c_semantics.specs.CValues.{W32, W64, least32, greatest32, least64, greatest64};
ghost use Rattle.c_semantics.specs.CState.{State};
ghost use Rattle.c_semantics.specs.Linking.{at_start, are_right, known_behind};
ghost use Rattle.c_semantics.specs.Program.{has_right_jumps};
ghost use Rattle.c_prelude.specs.Prelude.{prelude_items};
ghost use Rattle.c_prelude.specs.PreludeFile.{file_with, IsGrammatical};
ghost use Rattle.c_prelude.specs.PreludeLaws.{Traps, TrapsOver, Fits, Combines, WritesGap, WritesInt, SetsLocations, trapped, AtEnd, gap};
ghost use Rattle.c_prelude.specs.PreludeText.{prelude_text};

/// The prelude with external functions behind it is a file, and its text is that of the prelude with theirs
/// behind it. The functions of the prelude are right in types, names and calls.
pub fn prelude_goes_on()
    ensures grammatical { (rest : List CItem) → IsTrue (list_all is_item rest) → IsTrue (list_all is_external rest) → IsGrammatical (file_with rest) }
    ensures text { (rest : List CItem) → file_text (file_with rest) ≡ prelude_text ++ joined (item_texts rest) }
    ensures right { (rest : List CItem) → are_right (prelude_items ++ rest) at_start ≡ are_right rest (known_behind prelude_items at_start) }
    ensures jumps { IsTrue (list_all has_right_jumps prelude_items) }
{}

/// `lf_trap` writes the trap's name with the source and the line that `lf_name` and `lf_line` hold, and ends with status
/// 100 and its number.
pub fn lf_trap_ends()
    ensures ends { Traps }
    ensures text { (s : State) → trapped IntegerOverflow (record { source = codes "p1.f90"; line = 12 }) s (written [] []) ≡ Stopped (Ended (written [] (codes "lf: trap IntegerOverflow at p1.f90:12\n")) 101 None) }
{}

/// `lf_over` is the trap of an integer that does not fit.
pub fn lf_over_ends()
    ensures { TrapsOver }
{}

/// `lf_fit` answers a number of 32 bits, and traps for every other.
pub fn lf_fit_fits()
    ensures value { Fits }
    ensures greatest { AtEnd W32 greatest32 (pos 2147483648) }
    ensures least { AtEnd W32 least32 (negsuc 2147483648) }
{}

/// `lf_add` answers the sum where 64 bits hold it, and traps for every other.
pub fn lf_add_adds()
    ensures value { Combines (codes "lf_add") 2 (λ a b. a +ℤ b) }
    ensures greatest { AtEnd W64 (pos 9223372036854775806 +ℤ pos 1) (greatest64 +ℤ pos 1) }
    ensures least { AtEnd W64 (negsuc 9223372036854775806 +ℤ negsuc 0) (least64 +ℤ negsuc 0) }
{}

/// `lf_sub` answers the difference where 64 bits hold it, and traps for every other.
pub fn lf_sub_subtracts()
    ensures value { Combines (codes "lf_sub") 2 (λ a b. a -ℤ b) }
    ensures greatest { AtEnd W64 (pos 9223372036854775806 -ℤ negsuc 0) (greatest64 -ℤ negsuc 0) }
    ensures least { AtEnd W64 (negsuc 9223372036854775806 -ℤ pos 1) (least64 -ℤ pos 1) }
{}

/// `lf_mul` answers the product where 64 bits hold it, and traps for every other.
pub fn lf_mul_multiplies()
    ensures value { Combines (codes "lf_mul") 3 (λ a b. a *ℤ b) }
    ensures greatest { AtEnd W64 (greatest64 *ℤ pos 1) (least64 *ℤ negsuc 0) }
    ensures least { AtEnd W64 (least64 *ℤ pos 1) (negsuc 4611686018427387904 *ℤ pos 2) }
{}

/// `lf_gap` writes the blank that stands between two items of a record, if one does.
pub fn lf_gap_parts()
    ensures value { WritesGap }
    ensures first { gap (pos 0) (pos 1) ≡ [] }
    ensures numbers { gap (pos 1) (pos 1) ≡ codes " " }
    ensures characters { gap (pos 2) (pos 2) ≡ [] }
    ensures mixed { gap (pos 2) (pos 1) ≡ codes " " }
{}

/// `lf_int` writes a number in its fewest digits.
pub fn lf_int_writes()
    ensures value { WritesInt }
    ensures zero { signed_decimal (pos 0) ≡ codes "0" }
    ensures greatest { signed_decimal greatest64 ≡ codes "9223372036854775807" }
    ensures least { signed_decimal least64 ≡ codes "-9223372036854775808" }
{}

/// Two assignments make `lf_name` and `lf_line` name the source and the line that a trap tells, and change nothing else.
pub fn location_is_set()
    ensures { SetsLocations }
{}
