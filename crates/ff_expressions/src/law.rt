//! Laws of the definitions, each on a function that does nothing.
ghost use Rattle.ff_expressions.specs.Brackets.{ItemsAreSpelled};
ghost use Rattle.ff_expressions.specs.Depths.{DepthIsCounted, designator_of};
ghost use Rattle.std.specs.Prelude.{◌≡◌, ℕ, List, Some};
ghost use Rattle.ff_expressions.specs.declared.item.Item.{Item};
ghost use Rattle.ff_expressions.specs.declared.item.Parsed.{Parsed};
ghost use Rattle.ff_expressions.specs.declared.item.Part.{Part};
ghost use Rattle.ff_expressions.specs.declared.item.Reference.{Reference};
ghost use Rattle.ff_expressions.specs.Expressions.{reference_of, expression_of, output_of};
ghost use Rattle.ff_expressions.specs.Items.{part_of, parts_of};
ghost use Rattle.ff_expressions.specs.Grammar.{IsDesignator, IsExpression};
ghost use Rattle.ff_expressions.specs.Parts.{IsOutput, IsPart, AreParts};

/// The items of a statement are exactly those that its tokens spell: brackets match, and a group is read to its parts.
pub fn items_are_spelled()
    ensures { ItemsAreSpelled }
{}

/// A depth within the limit that stands beside a tree is the depth of the tree.
pub fn depth_is_counted()
    ensures expression { DepthIsCounted expression_of }
    ensures output { DepthIsCounted output_of }
    ensures designator { DepthIsCounted designator_of }
{}

/// An expression is found in the items of a statement exactly where the grammar of the standard has one: its rules for primaries and
/// for the operators of each level, from `**` to `.eqv.`, say which items it is and which tree (ISO/IEC 1539-1:2018, R1001 to R1022).
pub fn expression_is_by_grammar()
    ensures found { (items : List Item) (e : Parsed) → expression_of items ≡ Some e → IsExpression items e }
    ensures only { (items : List Item) (e : Parsed) → IsExpression items e → expression_of items ≡ Some e }
{}

/// The grammar of expressions is not ambiguous: two expressions that the same items are have the same tree and depth.
pub fn one_expression()
    ensures { (items : List Item) (a b : Parsed) → IsExpression items a → IsExpression items b → a ≡ b }
{}

/// What may be written is found exactly where the grammar has it: an expression, or an implied do in parentheses (R1217, R1218).
pub fn output_is_by_grammar()
    ensures found { (items : List Item) (e : Parsed) → output_of items ≡ Some e → IsOutput items e }
    ensures only { (items : List Item) (e : Parsed) → IsOutput items e → output_of items ≡ Some e }
{}

/// What stands between two commas of a group is found exactly where the grammar has it: `*`, a keyword with its value, a section with
/// colons, an expression or an implied do (R920 to R923, R1524).
pub fn part_is_by_grammar()
    ensures found { (items : List Item) (p : Part) → part_of items ≡ Some p → IsPart items p }
    ensures only { (items : List Item) (p : Part) → IsPart items p → part_of items ≡ Some p }
{}

/// The parts of a group are found exactly where the grammar has them: none, or parts with a comma between each two.
pub fn group_is_by_grammar()
    ensures found { (items : List Item) (parts : List Part) → parts_of items ≡ Some parts → AreParts items parts }
    ensures only { (items : List Item) (parts : List Part) → AreParts items parts → parts_of items ≡ Some parts }
{}

/// A designator or a function reference is found exactly where the grammar has one: a name, and behind it groups of arguments and
/// components (R901, R911, R1520).
pub fn designator_is_by_grammar()
    ensures found { (items : List Item) (r : Reference) → reference_of items ≡ Some r → IsDesignator items r }
    ensures only { (items : List Item) (r : Reference) → IsDesignator items r → reference_of items ≡ Some r }
{}
