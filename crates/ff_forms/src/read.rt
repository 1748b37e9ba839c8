ghost use Rattle.std.specs.Prelude.{◌≡◌, Some, map};
ghost use Rattle.ff_lexer.specs.Spans.{spelled};
ghost use Rattle.ff_expressions.specs.Items.{items_of};
ghost use Rattle.ff_forms.specs.Answers.{Gives};
ghost use Rattle.ff_forms.specs.Words.{rule_of};
ghost use Rattle.ff_forms.specs.Forms.{deep_flag, read_of, form_of, StatementGives, FaultGives};

use crate::form::{Form, Formed};
use crate::refusal::Refusal;
use crate::rows::statement;
use crate::words::rule;
use ff_expressions::{GREATEST_DEPTH, Item, Queue};
use ff_lexer::{Stmt, Token};
use lf_base::SyntaxFault;
use std::alloc::Global;

fn all_items(alloc: Global, source: &[u8], tokens: &[Token]) -> Result<Queue<Item>, Refusal>
    ensures { Gives (λ items. items) result (items_of (map (spelled source.now) tokens.now)) }
{
    match ff_expressions::items(alloc, source, tokens)? {
        Some(items) => Ok(items),
        None => Err(Refusal::Unformed),
    }
}

#[tactic(auto, unfolding(crate::specs::Forms::read_of))]
fn read(alloc: Global, source: &[u8], line: u32, tokens: &[Token]) -> Result<(Form, u32), Refusal>
    ensures { Gives (λ x. (x.0, x.1)) result (read_of line (map (spelled source.now) tokens.now)) }
{
    let items = all_items(alloc, source, tokens)?;
    statement(alloc, line, items)
}

#[tactic(auto, unfolding(crate::specs::Forms::deep_flag))]
fn deep_flag(depth: u32) -> u8
    ensures { result ≡ deep_flag depth }
{
    if GREATEST_DEPTH < depth {
        return 1;
    }
    0
}

fn fault(alloc: Global, source: &[u8], line: u32, tokens: &[Token]) -> SyntaxFault
    ensures { FaultGives line result (rule_of (map (spelled source.now) tokens.now)) }
{
    match rule(alloc, source, tokens) {
        Ok(rule) => SyntaxFault::At { line, rule },
        Err(_) => SyntaxFault::Memory,
    }
}

/// The form of a statement (ISO/IEC 1539-1:2018, R501 to R517). Where it is in none, the fault tells
/// its line, with E202 where its first words are those of a statement of the language that is not built, and else E201.
#[tactic(auto, unfolding(crate::specs::Forms::form_of, crate::specs::Forms::judged))]
pub fn read_form(alloc: Global, source: &[u8], stmt: &Stmt) -> Result<Formed, SyntaxFault>
    ensures { StatementGives stmt.now.line result (form_of stmt.now.line (map (spelled source.now) stmt.now.tokens.items)) }
{
    let line = stmt.line;
    let tokens = stmt.tokens.as_slice();
    match read(alloc, source, line, tokens) {
        Ok((form, depth)) => Ok(Formed {
            line,
            form,
            is_deep: deep_flag(depth),
        }),
        Err(Refusal::Memory) => Err(SyntaxFault::Memory),
        Err(Refusal::Unformed) => Err(fault(alloc, source, line, tokens)),
    }
}
