//! Laws of the definitions, for the crates above. None of these functions does anything.
ghost use Rattle.std.specs.Prelude.{◌≡◌, ℕ, ℤ, Ok, Err, Some, pos, negsuc, ◌+ℤ◌, ◌-ℤ◌, ◌*ℤ◌, List, [], ◌∷◌, length, map, true, false, ◌==◌};
ghost use Rattle.type_rules.specs.Characters.{first_difference, DifferAt, trimmed, IsTrimmed, place_from, IsPlace};
ghost use Rattle.type_rules.specs.Store.{Single, Value, Selector, value_at, with_value, Store, Place, read, write, held, with_held, map_of, places_apart};
ghost use Rattle.type_rules.specs.Arrays.{operation_on, single, type_at_run, OfEmpty};
ghost use Rattle.type_rules.specs.Operations.{operation};
ghost use Rattle.type_rules.specs.declared.constant.Op.{Op};
ghost use Rattle.type_rules.specs.Values.{Exact, Scalar, Gives, fitted, IsExact, is_constant, are_constants, scalar_of, constant_of, least};
ghost use Rattle.std.specs.Bool.{Decides};
ghost use Rattle.type_rules.specs.Equality.{identical_type, identical_constant, type_of_constant};
ghost use Rattle.type_rules.specs.Assignment.{assigned_scalar, assigned, from_extents, IsIntrinsic};
ghost use Rattle.type_rules.specs.Folds.{constant_given};
ghost use Rattle.type_rules.specs.declared.constant.Const.{Const};
ghost use Rattle.type_rules.specs.Matching.{matches, are_distinguishable, match_from, ArePairwiseDistinguishable, Resolves};
ghost use Rattle.type_rules.specs.Bindings.{Bounds, Binding, position_in, positions_in, upper_of, substring_of, place_of, bound_value, IsPosition, AreElements, IsSubstring};
ghost use Rattle.type_rules.specs.Counts.{section_count, IsWithinBounds};
ghost use Rattle.std.specs.FinMap.{get, insert};
ghost use Rattle.std.specs.Option.{option_map};
ghost use Rattle.type_rules.specs.Shapes.{shape_of, shape_at, scalar_type, is_element, Definitions, IsValue};
ghost use Rattle.type_rules.specs.declared.ty.Ty.{Ty};
ghost use Rattle.type_rules.specs.declared.constant.Op.TheVariants.{Binary};
ghost use Rattle.type_rules.specs.Types.{result_type};
ghost use Rattle.type_rules.specs.Typing.{type_of, judged, ranks_of};
ghost use Rattle.lf_base.specs.declared.rule.Rule.{Rule};
ghost use Rattle.type_rules.specs.declared.ty.Elem.{Elem};
ghost use Rattle.type_rules.specs.Judging.{AllSuit, Answers, AreValues, IsRight, IsWrong};
ghost use Rattle.type_rules.specs.declared.signature.Ranks.TheVariants.{OneArray};
ghost use Rattle.type_rules.specs.Integers.{quotient, remainder, modulo, IsModulo, IsDivision};

/// The defining equation of `modulo`.
pub fn modulo_is()
    ensures { (a b r : ℤ) → modulo a b ≡ Ok r → IsModulo a b r }
{}

/// The defining equation of division and `mod`.
pub fn division_is()
    ensures { (a b q r : ℤ) → quotient a b ≡ Ok q → remainder a b ≡ Ok r → IsDivision a b q r }
{}

/// `modulo` and `mod` differ by a multiple of the divisor.
pub fn modulo_and_mod()
    ensures { (a b m r : ℤ) → remainder a b ≡ Ok m → modulo a b ≡ Ok r → (k : ℤ) × (r ≡ k *ℤ b +ℤ m) }
{}

/// Two specific procedures that are distinguishable never match the same arguments.
pub fn one_specific()
    ensures { (a b args : List Ty) → are_distinguishable a b ≡ true → matches a args ≡ true → matches b args ≡ true → ⊥ }
{}

/// An integer result that fits its kind is the exact one.
pub fn fits_exactly()
    ensures { (kind : ℕ) (exact : Exact) (value : Scalar) → fitted kind exact ≡ Gives value → IsExact kind exact value }
{}

/// On scalars the table on values is the table on scalars.
pub fn values_of_scalars()
    ensures { (op : Op) (args : List Scalar) → operation_on op (map Single args) ≡ single (operation op args) }
{}

/// What the reductions give for an array without elements.
pub fn reductions_of_nothing()
    ensures { (kind : ℕ) → OfEmpty kind }
{}

/// What was written at the end of a path is read there.
pub fn written_is_read()
    ensures { (path : List Selector) (v new w : Value) → with_value path new v ≡ Some w → value_at path w ≡ Some new }
{}

/// What an operation gives for constants is a constant: an integer that fits its kind, a logical 0 or 1,
/// or at most 65,535 bytes.
pub fn gives_constants()
    ensures { (op : Op) (args : List Const) (c : Const) → are_constants args ≡ true → constant_given (operation op (map scalar_of args)) ≡ Some c → is_constant c ≡ true }
{}

/// The order of two texts of one length is that of the bytes at the first place where they differ.
pub fn first_difference_is()
    ensures { (xs ys : List ℕ) → length xs ≡ length ys → DifferAt xs ys (first_difference xs ys) }
{}

/// What `trim` leaves is followed by blanks alone, and does not end in one.
pub fn trimmed_is()
    ensures { (text : List ℕ) → IsTrimmed text (trimmed text) }
{}

/// `index` is the least place at which the part stands, or 0.
pub fn place_is()
    ensures { (part text : List ℕ) → IsPlace part text (place_from 1 part text) }
{}

/// Where the specifics are pairwise distinguishable, resolution answers the one that matches, and none
/// exactly where no specific does.
pub fn resolution_is()
    ensures { (ss : List (List Ty)) (args : List Ty) → ArePairwiseDistinguishable ss → Resolves ss args (match_from 0 ss args) }
{}

/// A write leaves all that has nothing in common with its place: another instance of a variable,
/// another component, another element, other bytes.
pub fn neighbours_keep()
    ensures { (store after : Store) (place other : Place) (new : Value) → places_apart place other ≡ true → write store place new ≡ Some after → read after other ≡ read store other }
{}

/// What was written at a place is read there.
pub fn place_is_written()
    ensures { (store after : Store) (place : Place) (new : Value) → write store place new ≡ Some after → read after place ≡ Some new }
{}

/// The store is a map from the numbers of the instances.
pub fn store_is_map()
    ensures { (store : Store) (instance : ℕ) → held store instance ≡ get (map_of store) instance }
{}

/// To put another value in an instance is to insert it in that map.
pub fn instance_is_inserted()
    ensures { (store : Store) (instance : ℕ) (old new : Value) → held store instance ≡ Some old → (other : ℕ) → get (map_of (with_held store instance new)) other ≡ get (insert (map_of store) instance new) other }
{}

/// The shape of a part is the part of the shape.
pub fn part_has_shape()
    ensures { (path : List Selector) (value : Value) → option_map shape_of (value_at path value) ≡ shape_at path (shape_of value) }
{}

/// A value of the shape of a part can be put in its place, and the whole keeps its shape.
pub fn value_keeps_shape()
    ensures { (path : List Selector) (value old new : Value) → value_at path value ≡ Some old → shape_of new ≡ shape_of old → (after : Value) × (with_value path new value ≡ Some after) × (shape_of after ≡ shape_of value) }
{}

/// A write of a value of the shape of what is there is never stuck, and every instance keeps its shape.
pub fn store_keeps_shapes()
    ensures { (store : Store) (place : Place) (old new : Value) → read store place ≡ Some old → shape_of new ≡ shape_of old → (after : Store) × (write store place new ≡ Some after) × ((instance : ℕ) → option_map shape_of (held after instance) ≡ option_map shape_of (held store instance)) }
{}

/// A value of the shape of another has its types.
pub fn type_is_of_shape()
    ensures { (definitions : Definitions) (ty : Ty) (value other : Value) → shape_of other ≡ shape_of value → IsValue definitions ty value → IsValue definitions ty other }
{}

/// A subscript has a place exactly within the bounds of its dimension (ISO/IEC 1539-1:2018, 9.5.3.2).
pub fn position_is()
    ensures { (b : Bounds) (subscript : ℤ) → IsPosition b subscript (position_in b subscript) }
{}

/// Subscripts within the bounds choose one of the elements (ISO/IEC 1539-1:2018, 9.5.3.3).
pub fn subscripts_choose_elements()
    ensures { (bs : List Bounds) (subscripts : List ℤ) → AreElements bs (positions_in bs subscripts) }
{}

/// The upper bound of a dimension without elements is its lower bound less 1.
pub fn empty_dimension()
    ensures { (b : Bounds) → b.extent ≡ 0 → upper_of b ≡ b.lower -ℤ pos 1 }
{}

/// The bytes of a substring stand within the text (ISO/IEC 1539-1:2018, 9.4.1).
pub fn substring_is()
    ensures { (first last : ℤ) (n : ℕ) → IsSubstring first last n (substring_of first last n) }
{}

/// A dummy is the whole of what it is bound to, or its first bytes (ISO/IEC 1539-1:2018, 15.5.2.4).
pub fn dummy_is()
    ensures { (store : Store) (b : Binding) → read store (place_of b) ≡ bound_value store b }
{}

/// The elements of a section stand within the bounds.
pub fn sections_are_within()
    ensures { (first last step lower upper : ℤ) (n : ℕ) → section_count first last step lower upper ≡ Gives n → (n == 0) ≡ false → IsWithinBounds first step lower upper n }
{}

/// What `unify` answers is the type of that operation.
pub fn unified_is_type()
    ensures { (code : ℕ) (a b : Ty) → result_type (Binary code) a b ≡ type_of (Binary code) (a ∷ b ∷ []) }
{}

/// An operation on scalars answers as their types say: a scalar of the type that there is, or a trap, or no
/// rule where there is none. The functions that reduce an array are left out.
pub fn scalars_answer()
    ensures { (op : Op) (elements : List Elem) (scalars : List Scalar) → AllSuit elements scalars → (ranks_of op ≡ OneArray → ⊥) → Answers (judged op elements) (operation op scalars) }
{}

/// An operation on values whose types are right gives a value of its type, or traps: each operator, each
/// conversion and each intrinsic function, on scalars, on arrays of each shape, and on arrays without
/// elements.
pub fn right_types_give()
    ensures { (definitions : Definitions) (op : Op) (types : List Ty) (values : List Value) (ty : Ty) → AreValues definitions types values → type_of op types ≡ Ok ty → IsRight definitions ty (operation_on op values) }
{}

/// An operation on values whose types at run are wrong gives no value.
pub fn wrong_types_give_none()
    ensures { (definitions : Definitions) (op : Op) (types : List Ty) (values : List Value) (rule : Rule) → AreValues definitions types values → type_of op (map type_at_run values) ≡ Err rule → IsWrong (operation_on op values) }
{}

/// `==` of types says that they are the same in everything.
pub fn types_decided()
    ensures { (a b : Ty) → Decides (identical_type a b) (a ≡ b) }
{}

/// `==` of constants says that they are the same.
pub fn constants_decided()
    ensures { (a b : Const) → Decides (identical_constant a b) (a ≡ b) }
{}

/// A constant is a value of its type.
pub fn constant_has_type()
    ensures { (definitions : Definitions) (constant : Const) → is_constant constant ≡ true → IsValue definitions (type_of_constant constant) (Single (scalar_of constant)) }
{}

/// `mod` and `modulo` of the least value by -1 are 0, although their quotient has no number.
pub fn least_by_minus_one()
    ensures four { (remainder (least 4) (negsuc 0) ≡ Ok (pos 0)) × (modulo (least 4) (negsuc 0) ≡ Ok (pos 0)) }
    ensures eight { (remainder (least 8) (negsuc 0) ≡ Ok (pos 0)) × (modulo (least 8) (negsuc 0) ≡ Ok (pos 0)) }
{}

/// What a scalar has after an assignment is a value of its type.
pub fn assigned_has_type()
    ensures { (definitions : Definitions) (element : Elem) (s after : Scalar) → is_constant (constant_of s) ≡ true → assigned_scalar element s ≡ Gives after → IsValue definitions (scalar_type element) (Single after) }
{}

/// What a variable of an intrinsic type has after an assignment is a value of its type, also an array.
pub fn target_has_type()
    ensures { (definitions : Definitions) (element : Elem) (extents : List ℕ) (ty : Ty) (value after : Value) → IsIntrinsic element → is_element element element ≡ true → IsValue definitions ty value → assigned element extents value ≡ Gives after → IsValue definitions (record { elem = element; dims = from_extents extents }) after }
{}
