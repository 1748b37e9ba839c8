//! What holds of the forms of statements, whatever the program does.

ghost use Rattle.std.specs.Prelude.{◌≡◌, ◌↔◌, ℕ, true, List, Some, Ok};
ghost use Rattle.ff_lexer.specs.Statements.{Spelled};
ghost use Rattle.ff_expressions.specs.declared.item.Item.{Item};
ghost use Rattle.ff_forms.specs.declared.form.Form.{Form};
ghost use Rattle.ff_forms.specs.declared.form.Formed.{Formed};
ghost use Rattle.ff_forms.specs.Actions.{is_assignment};
ghost use Rattle.ff_forms.specs.Cases.{IsAssigned, IsForm, IsStatement};
ghost use Rattle.ff_forms.specs.Forms.{form_of};
ghost use Rattle.ff_forms.specs.Rows.{statement_of};

/// By the cases of the grammar the tokens of a line are at most one statement.
pub fn one_statement()
    ensures { (line : ℕ) (tokens : List Spelled) (a b : Formed) → IsStatement line tokens a → IsStatement line tokens b → a ≡ b }
{}

/// What the leading words of a statement choose is a case of the grammar: the statement is written so.
pub fn found_is_form()
    ensures { (line : ℕ) (items : List Item) (form : Form) (depth : ℕ) → statement_of line items ≡ Some (form, depth) → IsForm line items form depth }
{}

/// A statement that is written as a case of the grammar says is found in that form, whatever words are looked at first.
pub fn form_is_found()
    ensures { (line : ℕ) (items : List Item) (form : Form) (depth : ℕ) → IsForm line items form depth → statement_of line items ≡ Some (form, depth) }
{}

/// No statement has two forms: where it is written as two cases of the grammar say, they give one form and one depth.
pub fn one_form()
    ensures { (line : ℕ) (items : List Item) (a b : Form) (m n : ℕ) → IsForm line items a m → IsForm line items b n → (a ≡ b) × (m ≡ n) }
{}

/// The form that is found of tokens is that of the statement that they are by the cases of the grammar, and none is found exactly where they
/// are none.
pub fn statement_is_written()
    ensures { (line : ℕ) (tokens : List Spelled) (formed : Formed) → (form_of line tokens ≡ Ok formed) ↔ IsStatement line tokens formed }
{}

/// What tells an assignment from every other statement: a designator chain stands in front of `=`, a name with arguments and
/// components behind it.
pub fn assignment_has_chain()
    ensures { (items : List Item) → (is_assignment items ≡ true) ↔ IsAssigned items }
{}
