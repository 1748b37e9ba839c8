//! Makes functions from a table of instructions, with a stack of values and a stack of blocks.

ghost use Rattle.std.specs.Prelude.{◌≡◌};
ghost use Rattle.c_prelude.specs.PreludeMachine.{start, state_of, with_value, with_stmt, without_arguments, with_parameter, with_item, with_function, word_text, callee_text, taken, go_on, run, Took, Made, Popped, Closed};

use crate::prelude_instruction::{Callee, Instruction, Message, Word};
use c_nodes::{CBinary, CExpr, CItem, CParameter, CResult, CStmt, CType};
use lf_base::Name;
use sqlite_items::{Boxed, Items};
use std::alloc::{AllocError, Global};
use std::collections::VecDeque;
use std::mem;

/// Why nothing was made: memory ran out, or an instruction stands without its parts.
#[derive(Clone, Copy)]
pub enum Fault {
    Memory,
    Broken,
}

impl From<AllocError> for Fault {
    ghost use Rattle.c_prelude.specs.declared.prelude_machine.Fault.TheVariants.{Memory};

    ghost from_gives = { λ _ e. e ≡ Memory };

    fn from(_: AllocError) -> Self {
        Fault::Memory
    }
}

impl From<lf_base::Memory> for Fault {
    ghost use Rattle.c_prelude.specs.declared.prelude_machine.Fault.TheVariants.{Memory};

    ghost from_gives = { λ _ e. e ≡ Memory };

    fn from(_: lf_base::Memory) -> Self {
        Fault::Memory
    }
}

/// What is made so far: the values, with the newest in front; in order, the arguments of the next call, the
/// statements of the innermost block, the parameters of the next function, and the items; and the blocks
/// that are open around the innermost, the nearest in front.
#[derive(Drop)]
pub struct Machine {
    pub values: VecDeque<CExpr>,
    pub arguments: Items<CExpr>,
    pub block: Items<CStmt>,
    pub blocks: VecDeque<Items<CStmt>>,
    pub parameters: Items<CParameter>,
    pub items: Items<CItem>,
}

fn pop<T: Drop>(stack: &mut VecDeque<T>) -> Result<T, Fault>
    ensures { Popped result stack.old.items stack.new.items }
{
    match stack.pop_front() {
        Some(newest) => Ok(newest),
        None => Err(Fault::Broken),
    }
}

fn pop_boxed(stack: &mut VecDeque<CExpr>, alloc: Global) -> Result<Boxed<CExpr>, Fault>
    ensures { Popped result stack.old.items stack.new.items }
{
    let value = pop(stack)?;
    match Boxed::new(alloc, value) {
        Ok(boxed) => Ok(boxed),
        Err(_) => Err(Fault::Memory),
    }
}

impl Machine {
    pub fn new(alloc: Global) -> Machine
        ensures { state_of result ≡ start }
    {
        Machine {
            values: VecDeque::new(alloc),
            arguments: Items::new(alloc),
            block: Items::new(alloc),
            blocks: VecDeque::new(alloc),
            parameters: Items::new(alloc),
            items: Items::new(alloc),
        }
    }

    fn push(&mut self, value: CExpr) -> Result<(), Fault>
        ensures { Took (state_of self.new) result (with_value (state_of self.old) value) }
    {
        match self.values.push_front(value) {
            Ok(()) => Ok(()),
            Err(_) => Err(Fault::Memory),
        }
    }

    // Adds a statement to the innermost block.
    fn say(&mut self, stmt: CStmt) -> Result<(), Fault>
        ensures { Took (state_of self.new) result (with_stmt (state_of self.old) stmt) }
    {
        match self.block.push(stmt) {
            Ok(()) => Ok(()),
            Err(_) => Err(Fault::Memory),
        }
    }

    // The innermost block is complete, and the one around it goes on.
    fn close(&mut self) -> Result<Items<CStmt>, Fault>
        ensures { Closed (state_of self.old) result (state_of self.new) }
    {
        let outer = pop(&mut self.blocks)?;
        Ok(mem::replace(&mut self.block, outer))
    }

    fn open(&mut self, alloc: Global) -> Result<(), Fault>
        ensures { Took (state_of self.new) result (taken (state_of self.old) Instruction.Body) }
    {
        let outer = mem::replace(&mut self.block, Items::new(alloc));
        match self.blocks.push_front(outer) {
            Ok(()) => Ok(()),
            Err(_) => Err(Fault::Memory),
        }
    }

    fn take_arguments(&mut self, alloc: Global) -> Items<CExpr>
        ensures state { state_of self.new ≡ without_arguments (state_of self.old) }
        ensures arguments { result ≡ self.old.arguments }
    {
        mem::replace(&mut self.arguments, Items::new(alloc))
    }

    fn variable(&mut self, alloc: Global, word: Word) -> Result<(), Fault>
        ensures { Took (state_of self.new) result (taken (state_of self.old) (Instruction.Variable word)) }
    {
        let name = Name::new(alloc, word.bytes())?;
        self.push(CExpr::Variable { name })
    }

    fn literal(&mut self, alloc: Global, message: Message) -> Result<(), Fault>
        ensures { Took (state_of self.new) result (taken (state_of self.old) (Instruction.Literal message)) }
    {
        let bytes = Items::from_slice(alloc, message.bytes())?;
        self.push(CExpr::Literal { bytes })
    }

    fn index(&mut self, alloc: Global) -> Result<(), Fault>
        ensures { Took (state_of self.new) result (taken (state_of self.old) Instruction.Index) }
    {
        let subscript = pop_boxed(&mut self.values, alloc)?;
        let base = pop_boxed(&mut self.values, alloc)?;
        self.push(CExpr::Index { base, subscript })
    }

    fn binary(&mut self, alloc: Global, operator: CBinary) -> Result<(), Fault>
        ensures { Took (state_of self.new) result (taken (state_of self.old) (Instruction.Binary operator)) }
    {
        let right = pop_boxed(&mut self.values, alloc)?;
        let left = pop_boxed(&mut self.values, alloc)?;
        self.push(CExpr::Binary {
            operator,
            left,
            right,
        })
    }

    fn paren(&mut self, alloc: Global) -> Result<(), Fault>
        ensures { Took (state_of self.new) result (taken (state_of self.old) Instruction.Paren) }
    {
        let inner = pop_boxed(&mut self.values, alloc)?;
        self.push(CExpr::Paren { inner })
    }

    fn negate(&mut self, alloc: Global) -> Result<(), Fault>
        ensures { Took (state_of self.new) result (taken (state_of self.old) Instruction.Negate) }
    {
        let operand = pop_boxed(&mut self.values, alloc)?;
        self.push(CExpr::Negate { operand })
    }

    fn to_int(&mut self, alloc: Global) -> Result<(), Fault>
        ensures { Took (state_of self.new) result (taken (state_of self.old) Instruction.ToInt) }
    {
        let operand = pop_boxed(&mut self.values, alloc)?;
        self.push(CExpr::ToInt { operand })
    }

    fn argument(&mut self) -> Result<(), Fault>
        ensures { Took (state_of self.new) result (taken (state_of self.old) Instruction.Argument) }
    {
        let value = pop(&mut self.values)?;
        match self.arguments.push(value) {
            Ok(()) => Ok(()),
            Err(_) => Err(Fault::Memory),
        }
    }

    fn declare_value(&mut self, alloc: Global, word: Word) -> Result<(), Fault>
        ensures { Took (state_of self.new) result (taken (state_of self.old) (Instruction.DeclareValue word)) }
    {
        let name = Name::new(alloc, word.bytes())?;
        let value = pop(&mut self.values)?;
        self.say(CStmt::DeclareValue {
            kind: CType::Int64,
            name,
            value,
        })
    }

    fn declare_pointer(&mut self, alloc: Global, word: Word) -> Result<(), Fault>
        ensures { Took (state_of self.new) result (taken (state_of self.old) (Instruction.DeclarePointer word)) }
    {
        let name = Name::new(alloc, word.bytes())?;
        let value = pop(&mut self.values)?;
        self.say(CStmt::DeclarePointer {
            kind: CType::Byte,
            name,
            value,
        })
    }

    fn declare_array(&mut self, alloc: Global, word: Word) -> Result<(), Fault>
        ensures { Took (state_of self.new) result (taken (state_of self.old) (Instruction.DeclareArray word)) }
    {
        let name = Name::new(alloc, word.bytes())?;
        let size = pop(&mut self.values)?;
        self.say(CStmt::DeclareArray {
            kind: CType::Byte,
            name,
            size,
        })
    }

    fn declare_call(&mut self, alloc: Global, word: Word, callee: Callee) -> Result<(), Fault>
        ensures { Took (state_of self.new) result (taken (state_of self.old) (Instruction.DeclareCall word callee)) }
    {
        let name = Name::new(alloc, word.bytes())?;
        let callee = Name::new(alloc, callee.bytes())?;
        let arguments = self.take_arguments(alloc);
        self.say(CStmt::DeclareCall {
            kind: CType::Int64,
            name,
            callee,
            arguments,
        })
    }

    fn assign(&mut self) -> Result<(), Fault>
        ensures { Took (state_of self.new) result (taken (state_of self.old) Instruction.Assign) }
    {
        let value = pop(&mut self.values)?;
        let target = pop(&mut self.values)?;
        self.say(CStmt::Assign { target, value })
    }

    fn assign_call(&mut self, alloc: Global, callee: Callee) -> Result<(), Fault>
        ensures { Took (state_of self.new) result (taken (state_of self.old) (Instruction.AssignCall callee)) }
    {
        let callee = Name::new(alloc, callee.bytes())?;
        let target = pop(&mut self.values)?;
        let arguments = self.take_arguments(alloc);
        self.say(CStmt::AssignCall {
            target,
            callee,
            arguments,
        })
    }

    fn call(&mut self, alloc: Global, callee: Callee) -> Result<(), Fault>
        ensures { Took (state_of self.new) result (taken (state_of self.old) (Instruction.Call callee)) }
    {
        let callee = Name::new(alloc, callee.bytes())?;
        let arguments = self.take_arguments(alloc);
        self.say(CStmt::Call { callee, arguments })
    }

    fn return_value(&mut self) -> Result<(), Fault>
        ensures { Took (state_of self.new) result (taken (state_of self.old) Instruction.ReturnValue) }
    {
        let value = pop(&mut self.values)?;
        self.say(CStmt::ReturnValue { value })
    }

    fn return_call(&mut self, alloc: Global, callee: Callee) -> Result<(), Fault>
        ensures { Took (state_of self.new) result (taken (state_of self.old) (Instruction.ReturnCall callee)) }
    {
        let callee = Name::new(alloc, callee.bytes())?;
        let arguments = self.take_arguments(alloc);
        self.say(CStmt::ReturnCall { callee, arguments })
    }

    fn while_loop(&mut self) -> Result<(), Fault>
        ensures { Took (state_of self.new) result (taken (state_of self.old) Instruction.While) }
    {
        let test = pop(&mut self.values)?;
        let body = self.close()?;
        self.say(CStmt::While { test, body })
    }

    fn if_then(&mut self) -> Result<(), Fault>
        ensures { Took (state_of self.new) result (taken (state_of self.old) Instruction.If) }
    {
        let test = pop(&mut self.values)?;
        let then_body = self.close()?;
        self.say(CStmt::If { test, then_body })
    }

    fn if_else(&mut self) -> Result<(), Fault>
        ensures { Took (state_of self.new) result (taken (state_of self.old) Instruction.IfElse) }
    {
        let test = pop(&mut self.values)?;
        let else_body = self.close()?;
        let then_body = self.close()?;
        self.say(CStmt::IfElse {
            test,
            then_body,
            else_body,
        })
    }

    fn parameter(&mut self, parameter: CParameter) -> Result<(), Fault>
        ensures { Took (state_of self.new) result (with_parameter (state_of self.old) parameter) }
    {
        match self.parameters.push(parameter) {
            Ok(()) => Ok(()),
            Err(_) => Err(Fault::Memory),
        }
    }

    fn value_parameter(&mut self, alloc: Global, word: Word) -> Result<(), Fault>
        ensures { Took (state_of self.new) result (taken (state_of self.old) (Instruction.Value word)) }
    {
        let name = Name::new(alloc, word.bytes())?;
        self.parameter(CParameter::Value {
            kind: CType::Int64,
            name,
        })
    }

    fn pointer_parameter(&mut self, alloc: Global, kind: CType, word: Word) -> Result<(), Fault>
        ensures { Took (state_of self.new) result (with_parameter (state_of self.old) (CParameter.Pointer kind (word_text word))) }
    {
        let name = Name::new(alloc, word.bytes())?;
        self.parameter(CParameter::Pointer { kind, name })
    }

    fn function(&mut self, alloc: Global, result_type: CResult, callee: Callee) -> Result<(), Fault>
        ensures { Took (state_of self.new) result (with_function (state_of self.old) result_type (callee_text callee)) }
    {
        let name = Name::new(alloc, callee.bytes())?;
        let body = self.close()?;
        let parameters = mem::replace(&mut self.parameters, Items::new(alloc));
        self.define(CItem::Function {
            is_static: true,
            result: result_type,
            name,
            parameters,
            body,
        })
    }

    fn define(&mut self, item: CItem) -> Result<(), Fault>
        ensures { Took (state_of self.new) result (with_item (state_of self.old) item) }
    {
        match self.items.push(item) {
            Ok(()) => Ok(()),
            Err(_) => Err(Fault::Memory),
        }
    }

    fn static_number(&mut self, alloc: Global, word: Word) -> Result<(), Fault>
        ensures { Took (state_of self.new) result (taken (state_of self.old) (Instruction.StaticNumber word)) }
    {
        let name = Name::new(alloc, word.bytes())?;
        self.define(CItem::StaticObject {
            kind: CType::Int64,
            name,
        })
    }

    fn static_pointer(&mut self, alloc: Global, word: Word) -> Result<(), Fault>
        ensures { Took (state_of self.new) result (taken (state_of self.old) (Instruction.StaticPointer word)) }
    {
        let name = Name::new(alloc, word.bytes())?;
        self.define(CItem::StaticPointer {
            kind: CType::Byte,
            name,
        })
    }

    fn take(&mut self, alloc: Global, instruction: Instruction) -> Result<(), Fault>
        ensures { Took (state_of self.new) result (taken (state_of self.old) instruction) }
    {
        match instruction {
            Instruction::Number(value) => self.push(CExpr::Constant { value }),
            Instruction::Greatest => self.push(CExpr::Greatest),
            Instruction::Least => self.push(CExpr::Least),
            Instruction::Variable(word) => self.variable(alloc, word),
            Instruction::Literal(message) => self.literal(alloc, message),
            Instruction::Index => self.index(alloc),
            Instruction::Paren => self.paren(alloc),
            Instruction::Negate => self.negate(alloc),
            Instruction::ToInt => self.to_int(alloc),
            Instruction::Binary(operator) => self.binary(alloc, operator),
            Instruction::Argument => self.argument(),
            Instruction::Body => self.open(alloc),
            Instruction::DeclareValue(word) => self.declare_value(alloc, word),
            Instruction::DeclarePointer(word) => self.declare_pointer(alloc, word),
            Instruction::DeclareArray(word) => self.declare_array(alloc, word),
            Instruction::DeclareCall(word, callee) => self.declare_call(alloc, word, callee),
            Instruction::Assign => self.assign(),
            Instruction::AssignCall(callee) => self.assign_call(alloc, callee),
            Instruction::Call(callee) => self.call(alloc, callee),
            Instruction::ReturnValue => self.return_value(),
            Instruction::ReturnCall(callee) => self.return_call(alloc, callee),
            Instruction::While => self.while_loop(),
            Instruction::If => self.if_then(),
            Instruction::IfElse => self.if_else(),
            Instruction::Value(word) => self.value_parameter(alloc, word),
            Instruction::BytePointer(word) => self.pointer_parameter(alloc, CType::Byte, word),
            Instruction::NumberPointer(word) => self.pointer_parameter(alloc, CType::Int64, word),
            Instruction::StaticNumber(word) => self.static_number(alloc, word),
            Instruction::StaticPointer(word) => self.static_pointer(alloc, word),
            Instruction::VoidFunction(callee) => self.function(alloc, CResult::Void, callee),
            Instruction::NumberFunction(callee) => self.function(alloc, CResult::Int64, callee),
        }
    }

    fn run(&mut self, alloc: Global, instructions: &[Instruction]) -> Result<(), Fault>
        ensures { Took (state_of self.new) result (run instructions.now (state_of self.old)) }
    {
        for instruction in instructions {
            self.take(alloc, *instruction)?;
        }
        Ok(())
    }
}

/// What both tables make, one behind the other, from nothing.
pub fn made(alloc: Global, first: &[Instruction], second: &[Instruction]) -> Result<Machine, Fault>
    ensures { Made result (go_on (run first.now start) (run second.now)) }
{
    let mut machine = Machine::new(alloc);
    machine.run(alloc, first)?;
    machine.run(alloc, second)?;
    Ok(machine)
}
