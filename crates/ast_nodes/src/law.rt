//! Laws of the definitions: each is the contract of a function that does nothing.

ghost use Rattle.std.specs.Prelude.{◌≡◌, ℕ, List, codes};
ghost use Rattle.ast_nodes.specs.Depth.{depth_of, named};
ghost use Rattle.ast_nodes.specs.Exprs.{expr_text};
ghost use Rattle.ast_nodes.specs.Text.{stmt_text, vars_text, ast_text};
ghost use Rattle.ast_nodes.specs.Examples.{program, characters, section, loop, variables};

/// A name alone has depth 2.
pub fn depth_of_a_name()
    ensures { (name : List ℕ) → depth_of (named name) ≡ 2 }
{}

/// The texts of small trees.
pub fn small_texts()
    ensures program { ast_text program ≡ codes "(Program 1 p [] [(Print 2 0 0 [(Binary 0 (Int \"2\" 0) (Binary 2 (Int \"3\" 0) (Int \"4\" 0)))])] [])\n" }
    ensures characters { expr_text characters ≡ codes "(Char \"a\\077\\042\\011\")" }
    ensures section { expr_text section ≡ codes "(Ref [(Part a) (Group [(Triple - - -)])])" }
    ensures loops { stmt_text loop ≡ codes "(While 3 - - [(Exit 4 c)])" }
    ensures variables { vars_text variables ≡ codes "(Vars 2 (Character (Star)) [(Save)] [(Entity c [(Bound - -)] -)])" }
{}
