//! Laws of the definitions: each is the contract of a function that does nothing.
ghost use Rattle.std.specs.Prelude.{List, ◌∷◌, []};
ghost use Rattle.ast_nodes.specs.declared.file.File.{File};
ghost use Rattle.file_order.specs.Answers.{IsLeastFileOrder, IsNamedCycle};
ghost use Rattle.file_order.specs.Examples.{user_first, circle};
ghost use Rattle.file_order.specs.Laws.{HasOrderOrStuck, HasNotBoth, AreStuckTogether};

/// Files have a valid order exactly where none of them is stuck.
pub fn order_or_stuck()
    ensures one { (files : List File) → HasOrderOrStuck files }
    ensures not_both { (files : List File) → HasNotBoth files }
{}

/// For each stuck file there is a stuck one that must stand before it.
pub fn stuck_together()
    ensures { (files : List File) → AreStuckTogether files }
{}

/// The order of a program that stands in front of the module that it uses, and the cycle of two
/// modules that use each other.
pub fn small_projects()
    ensures order { IsLeastFileOrder user_first (1 ∷ 0 ∷ []) }
    ensures cycle { IsNamedCycle circle (0 ∷ 1 ∷ []) }
{}
