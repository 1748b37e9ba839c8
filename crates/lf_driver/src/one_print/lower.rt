ghost use Rattle.std.specs.Prelude.{◌≡◌, ℕ, ◌+◌, List, [], ◌∷◌, ◌++◌, length, codes, IfOk, OnOk};
ghost use Rattle.std.specs.Fmt.{decimal};
ghost use Rattle.c_prelude.specs.Prelude.{prelude_file};
ghost use Rattle.c_nodes.specs.declared.tree.CType.TheVariants.{Int64};
ghost use Rattle.c_nodes.specs.declared.tree.CStmt.TheVariants.{DeclareCall, DeclareValue, Assign, Call};
ghost use Rattle.c_nodes.specs.declared.tree.CExpr.TheVariants.{Variable, Constant, Address, Literal};
ghost use Rattle.lf_driver.specs.OnePrint.Built.{literal_of, literal_tree, tree_in};
ghost use Rattle.lf_base.specs.Outcome.{Location};
ghost use Rattle.lf_driver.specs.OnePrint.Emits.{Emits, EmitsPrint, location_at};
ghost use Rattle.lf_driver.specs.OnePrint.Lowered.{temporary, temporary_value, helper, constant, computed, fitted, noted, operation, printing_begins, printing_ends, unit_name, init_name, init_prototype, init_function, body_with, main_with, items_with};

use crate::one_print::built::{Operator, literal, operator_of};
use ast_nodes::Expr;
use c_nodes::{CExpr, CFile, CItem, CResult, CStmt, CType};
use c_prelude::prelude;
use itoa::Buffer;
use lf_base::{Memory, Name};
use sqlite_items::{Boxed, Items};
use std::alloc::Global;

/// Where the statement stands that is lowered: in the file of this name, on this line.
#[derive(Clone, Copy)]
pub(crate) struct Located<'a> {
    pub(crate) source: &'a [u8],
    pub(crate) line: u32,
}

fn temporary(alloc: Global, number: usize) -> Result<Name, Memory>
    ensures { IfOk result (λ n. n ≡ temporary number) }
{
    let mut text = Vec::new(alloc);
    let mut buffer = Buffer::new();
    text.extend_from_slice(b"t")?;
    text.extend_from_slice(buffer.format(number).as_bytes())?;
    Name::new(alloc, text.as_slice())
}

fn temporary_value(alloc: Global, number: usize) -> Result<CExpr, Memory>
    ensures { IfOk result (λ e. e ≡ temporary_value number) }
{
    let name = temporary(alloc, number)?;
    Ok(CExpr::Variable { name })
}

fn one(alloc: Global, item: CExpr) -> Result<Items<CExpr>, Memory>
    ensures { IfOk result (λ es. es ≡ item ∷ []) }
{
    let mut items = Items::new(alloc);
    items.push(item)?;
    Ok(items)
}

fn one_more(items: Items<CExpr>, item: CExpr) -> Result<Items<CExpr>, Memory>
    ensures { IfOk result (λ es. es ≡ items ++ item ∷ []) }
{
    let mut items = items;
    items.push(item)?;
    Ok(items)
}

fn helper(operator: Operator) -> &'static [u8]
    ensures { result.now ≡ helper operator }
{
    match operator {
        Operator::Add => b"lf_add",
        Operator::Subtract => b"lf_sub",
        Operator::Multiply => b"lf_mul",
    }
}

fn push(body: &mut Items<CStmt>, stmt: CStmt) -> Result<(), Memory>
    ensures { OnOk result (body.new ≡ body.old ++ stmt ∷ []) }
{
    body.push(stmt)?;
    Ok(())
}

fn constant(alloc: Global, number: usize, value: u64) -> Result<CStmt, Memory>
    ensures { IfOk result (λ s. s ≡ constant number value) }
{
    let name = temporary(alloc, number)?;
    Ok(CStmt::DeclareValue {
        kind: CType::Int64,
        name,
        value: CExpr::Constant { value },
    })
}

fn two_values(alloc: Global, left: usize, right: usize) -> Result<Items<CExpr>, Memory>
    ensures { IfOk result (λ es. es ≡ temporary_value left ∷ temporary_value right ∷ []) }
{
    let left = temporary_value(alloc, left)?;
    let items = one(alloc, left)?;
    let right = temporary_value(alloc, right)?;
    one_more(items, right)
}

fn call_into(
    alloc: Global,
    number: usize,
    callee: &[u8],
    arguments: Items<CExpr>,
) -> Result<CStmt, Memory>
    ensures { IfOk result (λ s. s ≡ DeclareCall Int64 (temporary number) callee.now arguments) }
{
    let name = temporary(alloc, number)?;
    let callee = Name::new(alloc, callee)?;
    Ok(CStmt::DeclareCall {
        kind: CType::Int64,
        name,
        callee,
        arguments,
    })
}

fn computed(
    alloc: Global,
    operator: Operator,
    left: usize,
    right: usize,
    number: usize,
) -> Result<CStmt, Memory>
    ensures { IfOk result (λ s. s ≡ computed operator left right number) }
{
    let arguments = two_values(alloc, left, right)?;
    call_into(alloc, number, helper(operator), arguments)
}

fn fitted(alloc: Global, of: usize, number: usize) -> Result<CStmt, Memory>
    ensures { IfOk result (λ s. s ≡ fitted of number) }
{
    let value = temporary_value(alloc, of)?;
    let arguments = one(alloc, value)?;
    call_into(alloc, number, b"lf_fit", arguments)
}

// The number behind another. There are no more numbers than statements in memory.
fn next(number: usize) -> Result<usize, Memory>
    ensures { IfOk result (λ n. n ≡ number + 1) }
{
    match number.checked_add(1) {
        Some(next) => Ok(next),
        None => Err(Memory),
    }
}

fn emit_constant(
    alloc: Global,
    body: &mut Items<CStmt>,
    behind: usize,
    value: u64,
) -> Result<usize, Memory>
    ensures body { OnOk result (body.new ≡ body.old ++ constant (behind + 1) value ∷ []) }
    ensures count { IfOk result (λ n. n ≡ behind + 1) }
{
    let number = next(behind)?;
    let stmt = constant(alloc, number, value)?;
    push(body, stmt)?;
    Ok(number)
}

fn literal_text(alloc: Global, text: &[u8]) -> Result<CExpr, Memory>
    ensures { IfOk result (λ e. e ≡ Literal text.now) }
{
    Ok(CExpr::Literal {
        bytes: Items::from_vec(Vec::from_slice(alloc, text)?),
    })
}

fn assign(alloc: Global, target: &[u8], value: CExpr) -> Result<CStmt, Memory>
    ensures { IfOk result (λ s. s ≡ Assign (Variable target.now) value) }
{
    let name = Name::new(alloc, target)?;
    Ok(CStmt::Assign {
        target: CExpr::Variable { name },
        value,
    })
}

// The lines that note where a trap of the next statement shows.
fn note(alloc: Global, body: &mut Items<CStmt>, at: Located) -> Result<(), Memory>
    ensures { OnOk result (body.new ≡ body.old ++ noted (location_at at.entry)) }
{
    let source = literal_text(alloc, at.source)?;
    let stmt = assign(alloc, b"lf_name", source)?;
    push(body, stmt)?;
    let line = CExpr::Constant {
        value: u64::from(at.line),
    };
    let stmt = assign(alloc, b"lf_line", line)?;
    push(body, stmt)
}

fn emit_operation(
    alloc: Global,
    body: &mut Items<CStmt>,
    at: Located,
    operator: Operator,
    left: usize,
    right: usize,
    behind: usize,
) -> Result<usize, Memory>
    ensures body { OnOk result (body.new ≡ body.old ++ operation (location_at at.entry) operator left right behind) }
    ensures count { IfOk result (λ n. n ≡ behind + 2) }
{
    note(alloc, body, at)?;
    let number = next(behind)?;
    let stmt = computed(alloc, operator, left, right, number)?;
    push(body, stmt)?;
    note(alloc, body, at)?;
    let checked = next(number)?;
    let stmt = fitted(alloc, number, checked)?;
    push(body, stmt)?;
    Ok(checked)
}

fn emit_literal(
    alloc: Global,
    body: &mut Items<CStmt>,
    digits: &[u8],
    suffix: u8,
    behind: usize,
) -> Result<Option<usize>, Memory>
    ensures { (location : Location) → Emits location result (literal_tree (literal_of digits.now suffix)) behind body.old body.new }
{
    match literal(digits, suffix) {
        None => Ok(None),
        Some(value) => match emit_constant(alloc, body, behind, value) {
            Ok(number) => Ok(Some(number)),
            Err(Memory) => Err(Memory),
        },
    }
}

// The statements of a value, behind so many temporaries: the number of the last one, which has it. A value
// is as deep as a tree may be.
fn emit(
    alloc: Global,
    body: &mut Items<CStmt>,
    at: Located,
    value: &Expr,
    behind: usize,
) -> Result<Option<usize>, Memory>
    ensures { Emits (location_at at.entry) result (tree_in value.now) behind body.old body.new }
{
    match value {
        Expr::Int { digits, suffix } => {
            emit_literal(alloc, body, digits.as_slice(), *suffix, behind)
        }
        Expr::Binary {
            operator,
            left,
            right,
        } => {
            let Some(operator) = operator_of(*operator) else {
                return Ok(None);
            };
            let Some(left) = emit(alloc, body, at, left.get(), behind)? else {
                return Ok(None);
            };
            let Some(right) = emit(alloc, body, at, right.get(), left)? else {
                return Ok(None);
            };
            let number = emit_operation(alloc, body, at, operator, left, right, right)?;
            Ok(Some(number))
        }
        Expr::Log { .. }
        | Expr::Char { .. }
        | Expr::Ref { .. }
        | Expr::Triple { .. }
        | Expr::Unary { .. }
        | Expr::Paren { .. }
        | Expr::Array { .. }
        | Expr::Loop { .. } => Ok(None),
    }
}

fn named(alloc: Global, name: &[u8]) -> Result<CExpr, Memory>
    ensures { IfOk result (λ e. e ≡ Variable name.now) }
{
    let name = Name::new(alloc, name)?;
    Ok(CExpr::Variable { name })
}

fn call(alloc: Global, callee: &[u8], arguments: Items<CExpr>) -> Result<CStmt, Memory>
    ensures { IfOk result (λ s. s ≡ Call callee.now arguments) }
{
    let callee = Name::new(alloc, callee)?;
    Ok(CStmt::Call { callee, arguments })
}

fn put_character(alloc: Global, code: u64) -> Result<CStmt, Memory>
    ensures { IfOk result (λ s. s ≡ Call (codes "putchar") (Constant code ∷ [])) }
{
    let arguments = one(alloc, CExpr::Constant { value: code })?;
    call(alloc, b"putchar", arguments)
}

// The number that tells what was printed last on the line.
fn record(alloc: Global) -> Result<CStmt, Memory>
    ensures { IfOk result (λ s. s ≡ DeclareValue Int64 (codes "r1") (Constant 0)) }
{
    let name = Name::new(alloc, b"r1")?;
    Ok(CStmt::DeclareValue {
        kind: CType::Int64,
        name,
        value: CExpr::Constant { value: 0 },
    })
}

fn record_place(alloc: Global) -> Result<CExpr, Memory>
    ensures { IfOk result (λ e. e ≡ Address (Variable (codes "r1"))) }
{
    let place = named(alloc, b"r1")?;
    Ok(CExpr::Address {
        place: Boxed::new(alloc, place)?,
    })
}

fn gap(alloc: Global) -> Result<CStmt, Memory>
    ensures { IfOk result (λ s. s ≡ Call (codes "lf_gap") (Address (Variable (codes "r1")) ∷ Constant 1 ∷ [])) }
{
    let place = record_place(alloc)?;
    let arguments = one(alloc, place)?;
    let arguments = one_more(arguments, CExpr::Constant { value: 1 })?;
    call(alloc, b"lf_gap", arguments)
}

fn print_integer(alloc: Global, number: usize) -> Result<CStmt, Memory>
    ensures { IfOk result (λ s. s ≡ Call (codes "lf_int") (temporary_value number ∷ [])) }
{
    let value = temporary_value(alloc, number)?;
    let arguments = one(alloc, value)?;
    call(alloc, b"lf_int", arguments)
}

fn begin_printing(alloc: Global) -> Result<Items<CStmt>, Memory>
    ensures { IfOk result (λ b. b ≡ printing_begins) }
{
    let mut body = Items::new(alloc);
    let stmt = record(alloc)?;
    push(&mut body, stmt)?;
    let stmt = put_character(alloc, 32)?;
    push(&mut body, stmt)?;
    Ok(body)
}

fn end_printing(alloc: Global, body: &mut Items<CStmt>, number: usize) -> Result<(), Memory>
    ensures { OnOk result (body.new ≡ body.old ++ printing_ends number) }
{
    let stmt = gap(alloc)?;
    push(body, stmt)?;
    let stmt = print_integer(alloc, number)?;
    push(body, stmt)?;
    let stmt = put_character(alloc, 10)?;
    push(body, stmt)
}

// The statements that print a value, if it is built.
pub(crate) fn print_value(
    alloc: Global,
    at: Located,
    value: &Expr,
) -> Result<Option<Items<CStmt>>, Memory>
    ensures { EmitsPrint (location_at at.entry) result (tree_in value.now) }
{
    let mut body = begin_printing(alloc)?;
    match emit(alloc, &mut body, at, value, 0)? {
        None => Ok(None),
        Some(number) => {
            end_printing(alloc, &mut body, number)?;
            Ok(Some(body))
        }
    }
}

fn append(text: &mut Vec<u8>, more: &[u8]) -> Result<(), Memory>
    ensures { OnOk result (text.new.items ≡ text.old.items ++ more.now) }
{
    text.extend_from_slice(more)?;
    Ok(())
}

// `lf`, and the name behind its length.
fn unit_name(alloc: Global, name: &[u8]) -> Result<Vec<u8>, Memory>
    ensures { IfOk result (λ v. v.items ≡ unit_name name.now) }
{
    let mut text = Vec::new(alloc);
    let mut buffer = Buffer::new();
    append(&mut text, b"lf_")?;
    append(&mut text, buffer.format(name.len()).as_bytes())?;
    append(&mut text, b"_")?;
    append(&mut text, name)?;
    Ok(text)
}

fn init_name(alloc: Global, name: &[u8]) -> Result<Name, Memory>
    ensures { IfOk result (λ n. n ≡ init_name name.now) }
{
    let mut text = unit_name(alloc, name)?;
    append(&mut text, b"_init")?;
    Name::new(alloc, text.as_slice())
}

fn init_prototype(alloc: Global, name: &[u8]) -> Result<CItem, Memory>
    ensures { IfOk result (λ i. i ≡ init_prototype name.now) }
{
    let name = init_name(alloc, name)?;
    Ok(CItem::Prototype {
        result: CResult::Void,
        name,
        parameters: Items::new(alloc),
    })
}

fn init_function(alloc: Global, name: &[u8]) -> Result<CItem, Memory>
    ensures { IfOk result (λ i. i ≡ init_function name.now) }
{
    let name = init_name(alloc, name)?;
    let mut body = Items::new(alloc);
    push(&mut body, CStmt::Return)?;
    Ok(CItem::Function {
        is_static: false,
        result: CResult::Void,
        name,
        parameters: Items::new(alloc),
        body,
    })
}

fn call_init(alloc: Global, name: &[u8]) -> Result<CStmt, Memory>
    ensures { IfOk result (λ s. s ≡ Call (init_name name.now) []) }
{
    let callee = init_name(alloc, name)?;
    Ok(CStmt::Call {
        callee,
        arguments: Items::new(alloc),
    })
}

fn main_body(alloc: Global, name: &[u8], statements: Items<CStmt>) -> Result<Items<CStmt>, Memory>
    ensures { IfOk result (λ b. b ≡ body_with name.now statements) }
{
    let mut body = Items::new(alloc);
    let stmt = call_init(alloc, name)?;
    push(&mut body, stmt)?;
    push(&mut body, CStmt::Block { body: statements })?;
    push(
        &mut body,
        CStmt::ReturnValue {
            value: CExpr::Constant { value: 0 },
        },
    )?;
    Ok(body)
}

fn main_function(alloc: Global, name: &[u8], statements: Items<CStmt>) -> Result<CItem, Memory>
    ensures { IfOk result (λ i. i ≡ main_with name.now statements) }
{
    let body = main_body(alloc, name, statements)?;
    let name = Name::new(alloc, b"main")?;
    Ok(CItem::Function {
        is_static: false,
        result: CResult::Int,
        name,
        parameters: Items::new(alloc),
        body,
    })
}

fn push_item(items: &mut Items<CItem>, item: CItem) -> Result<(), Memory>
    ensures { OnOk result (items.new ≡ items.old ++ item ∷ []) }
{
    items.push(item)?;
    Ok(())
}

fn push_program(
    alloc: Global,
    items: &mut Items<CItem>,
    name: &[u8],
    statements: Items<CStmt>,
) -> Result<(), Memory>
    ensures { OnOk result (items.new ≡ items.old ++ items_with name.now statements) }
{
    let main = main_function(alloc, name, statements)?;
    let item = init_prototype(alloc, name)?;
    push_item(items, item)?;
    let item = init_function(alloc, name)?;
    push_item(items, item)?;
    push_item(items, main)
}

/// The C file of a program: the prelude, and behind it the program's own functions. Its statements are those
/// that print.
pub(crate) fn program_file(
    alloc: Global,
    name: &[u8],
    statements: Items<CStmt>,
) -> Result<CFile, Memory>
    ensures { IfOk result (λ f. f ≡ record { items = prelude_file.items ++ items_with name.now statements }) }
{
    let mut file = prelude(alloc)?;
    push_program(alloc, &mut file.items, name, statements)?;
    Ok(file)
}
