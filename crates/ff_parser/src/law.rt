//! Laws of the files that statements are.
ghost use Rattle.std.specs.Prelude.{◌≡◌, ◌++◌, ℕ, List, Ok, Err};
ghost use Rattle.lf_base.specs.declared.rule.Rule.{Rule};
ghost use Rattle.ast_nodes.specs.declared.file.File.{File};
ghost use Rattle.ff_lexer.specs.Statements.{Spelled};
ghost use Rattle.ff_forms.specs.declared.form.Formed.{Formed};
ghost use Rattle.ff_parser.specs.Files.{Judged, file_of, file_in, reached_by, IsFile};

/// The grammar and what is found agree: the file that is found is written as the statements by the grammar of units, procedures,
/// definitions, constructs and blocks, and a file that is written so is found.
pub fn found_by_grammar()
    ensures found { (statements : List (ℕ × List Spelled)) (file : File) → file_in statements ≡ Ok file → IsFile statements file }
    ensures only { (statements : List (ℕ × List Spelled)) (file : File) → IsFile statements file → file_in statements ≡ Ok file }
{}

/// By the grammar at most one file belongs to a list of statements.
pub fn one_file()
    ensures { (statements : List (ℕ × List Spelled)) (a b : File) → IsFile statements a → IsFile statements b → a ≡ b }
{}

/// The first statement that breaks a rule counts, whatever stands behind it.
pub fn first_fault_counts()
    ensures { (front behind : List (Judged Formed)) (fault : ℕ × Rule) → reached_by front ≡ Err fault → file_of (front ++ behind) ≡ Err fault }
{}
