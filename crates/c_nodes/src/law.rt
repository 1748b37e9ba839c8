//! Laws of the definitions: each is the contract of a function that does nothing.

ghost use Rattle.std.specs.Prelude.{◌≡◌, ℕ, List, IsTrue, false};
ghost use Rattle.std.specs.List.{list_all};
ghost use Rattle.lf_base.specs.Contents.{joined};
ghost use Rattle.c_nodes.specs.declared.tree.CFile.{CFile};
ghost use Rattle.c_nodes.specs.declared.tree.CItem.{CItem};
ghost use Rattle.c_nodes.specs.Grammar.{is_item, SpellsBehind};
ghost use Rattle.c_nodes.specs.ShownFile.{shown, shown_text, early_label};
ghost use Rattle.c_nodes.specs.Text.{item_texts};

/// A C file has at most one spelling, whatever the prelude.
pub fn one_spelling()
    ensures { (prelude : List CItem) (file : CFile) (a b : List ℕ) → SpellsBehind prelude a file → SpellsBehind prelude b file → a ≡ b }
{}

/// The text of a small file with each shape, line by line. A label stands last in its block.
pub fn shapes_are_shown()
    ensures text { joined (item_texts shown) ≡ shown_text }
    ensures items { IsTrue (list_all is_item shown) }
    ensures early { list_all is_item early_label ≡ false }
{}
