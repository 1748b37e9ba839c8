//! Laws of the lexical form. Each function does nothing: its contract is the law.
ghost use Rattle.std.specs.Prelude.{◌≡◌, ◌⊎◌, ℕ, false, List, map, Ok};
ghost use Rattle.lf_base.specs.declared.rule.Rule.{Rule};
ghost use Rattle.ff_lexer.specs.declared.bytes.Context.{Context};
ghost use Rattle.ff_lexer.specs.declared.bytes.Context.TheVariants as context;
ghost use Rattle.ff_lexer.specs.declared.lexeme.Placed.{Placed};
ghost use Rattle.ff_lexer.specs.Bytes.{lowered};
ghost use Rattle.ff_lexer.specs.Continued.{HasDrafts};
ghost use Rattle.ff_lexer.specs.Held.{lines_hold, tokens_in, spelled_text};
ghost use Rattle.ff_lexer.specs.Lexemes.{lexed};
ghost use Rattle.ff_lexer.specs.Lines.{Line, Draft, Body, Taken, lines_from, body_of, in_body};
ghost use Rattle.ff_lexer.specs.Solid.{solid, bytes_as, joined};
ghost use Rattle.ff_lexer.specs.Statements.{Spelled, found_in, drafts_of, statements_of, FaultOf};
ghost use Rattle.ff_lexer.specs.Told.{StatementsOf};
ghost use Rattle.ff_lexer.specs.Written.{HasLines, holds, IsCut, HasStatements};

/// At most one list of statements is related to a text.
pub fn one_list()
    ensures { (text : List ℕ) (first second : List (ℕ × List Spelled)) → StatementsOf text first → StatementsOf text second → first ≡ second }
{}

/// A text has a list of statements or a first fault, and not both.
pub fn list_or_fault()
    ensures some { (text : List ℕ) → ((statements : List (ℕ × List Spelled)) × StatementsOf text statements) ⊎ ((fault : ℕ × Rule) × FaultOf text fault) }
    ensures one { (text : List ℕ) (statements : List (ℕ × List Spelled)) (fault : ℕ × Rule) → StatementsOf text statements → FaultOf text fault → ⊥ }
{}

/// The tokens of a statement that breaks no rule make its text, without the blanks outside character constants.
pub fn tokens_cover()
    ensures { (draft : Draft) (pieces : List (List ℕ)) → lexed bytes_as draft ≡ Ok pieces → joined pieces ≡ solid context.Code draft.text }
{}

/// The lines of a text hold no newline. Each ends with a newline, or with a carriage return and a newline, and what
/// stands behind the last newline is one more line if it is not empty. `lines_from` gives exactly these lines, with the
/// places where they begin.
pub fn lines_are_found()
    ensures found { (at : ℕ) (text : List ℕ) → HasLines at text (lines_from at text) }
    ensures only { (at : ℕ) (text : List ℕ) (lines : List Line) → HasLines at text lines → lines ≡ lines_from at text }
{}

/// A line counts up to its comment, which begins with a `!` outside character constants (6.3.2.3), or up to the `&`
/// with which it is continued: behind that `&` stand only blanks, or outside character constants blanks and a comment
/// (6.3.2.4). `body_of` gives exactly that front of a line, and whether the line is continued.
pub fn bodies_are_cut()
    ensures found { (context : Context) (at : ℕ) (line : List ℕ) → holds 10 line ≡ false → IsCut context at line (body_of context at line) }
    ensures only { (context : Context) (at : ℕ) (line : List ℕ) (body : Body) → holds 10 line ≡ false → IsCut context at line body → body ≡ body_of context at line }
{}

/// A `;` ends a statement where it stands outside character constants and the statement has begun; any other `;` ends
/// nothing (6.3.2.5). `in_body` gives exactly the statements of a line that are separated so: those that end on it, of
/// which the first may have begun on an earlier line, and the one that is open behind the last `;`.
pub fn statements_are_split()
    ensures found { (line : ℕ) (open_one : Draft) (body : List Placed) → HasStatements line open_one body (in_body line open_one body) }
    ensures only { (line : ℕ) (open_one : Draft) (body : List Placed) (statements : Taken) → HasStatements line open_one body statements → statements ≡ in_body line open_one body }
{}

/// The statements of a text are read line by line. Behind a line that is continued, lines that are empty or comments are
/// passed; where the next line begins with an `&`, the statement goes on directly behind it, also within a character
/// constant; without one it goes on with the whole line, as behind a blank (6.3.2.4). `drafts_of` gives exactly these
/// statements.
pub fn statements_go_on()
    ensures found { (text : List ℕ) → HasDrafts text (drafts_of text) }
    ensures only { (text : List ℕ) (drafts : List Draft) → HasDrafts text drafts → drafts ≡ drafts_of text }
{}

/// The statements of a text with their tokens are those of its lines, where the text is not too large and each of them
/// breaks no rule; a statement without tokens is none. `statements_of` gives exactly these.
pub fn statements_are_told()
    ensures found { (text : List ℕ) (statements : List (ℕ × List Spelled)) → statements_of text ≡ Ok statements → StatementsOf text statements }
    ensures only { (text : List ℕ) (statements : List (ℕ × List Spelled)) → StatementsOf text statements → statements_of text ≡ Ok statements }
{}

/// Nothing of a text is lost. Where no rule is broken, the tokens of all its statements, one behind the other, are the
/// text without the ends of lines, comments, the `&` of continuations, and outside character constants the blanks and
/// `;`. As the statements are told, the letters of names are small ones.
pub fn tokens_cover_text()
    ensures bytes { (text : List ℕ) (statements : List (ℕ × List (List ℕ))) → found_in bytes_as (drafts_of text) ≡ Ok statements → joined (tokens_in statements) ≡ lines_hold false context.Code (lines_from 0 text) }
    ensures spelled { (text : List ℕ) (statements : List (ℕ × List Spelled)) → StatementsOf text statements → map lowered (spelled_text (tokens_in statements)) ≡ map lowered (lines_hold false context.Code (lines_from 0 text)) }
{}
