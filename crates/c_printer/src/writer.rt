//! What has been written of the lines of a function.
ghost use Rattle.std.specs.Prelude.{◌≡◌, true, []};
ghost use Rattle.c_printer.specs.Helpers.{helper_name, may_trap};
ghost use Rattle.c_printer.specs.Lowering.{computed, line};
ghost use Rattle.c_printer.specs.Statements.{declare_temp};
ghost use Rattle.c_printer.specs.Values.{helped};
ghost use Rattle.c_printer.specs.Writing.{Writes, Draws, Types, calling, location, locating, nothing_written, temp_type, with_lines};

use crate::located::Located;
use crate::scalar::{Helper, ScalarType, Value};
use crate::{cexpr, names};
use c_nodes::{CExpr, CStmt, CType};
use lf_base::{Memory, Name};
use sqlite_items::Items;
use std::alloc::Global;
use std::collections::BTreeMap;
use std::marker::Model;
use std::mem;

/// The lines of the block that is open, how many values the function has computed so far, and the types of the
/// temporaries of the tree by their numbers.
///
/// Where memory runs out it holds a part of the lines, and is thrown away.
#[derive(Drop)]
pub(crate) struct Writer {
    alloc: Global,
    lines: Items<CStmt>,
    values: u64,
    temps: BTreeMap<u64, ScalarType>,
}

impl Model for Writer {
    ghost use Rattle.std.specs.Coded.{codes};
    ghost use Rattle.c_nodes.specs.contracts.tree.CStmt as stmt;
    ghost use Rattle.c_printer.specs.Writing.{Written};

    ghost Value = { Written };

    ghost coded = { Prim.hlevel (codes, stmt.the_row.coded) };

    ghost view = { λ w. record { lines = w.lines; values = w.values; temps = w.temps.entries } };
}

fn helper_name(helper: Helper) -> &'static [u8]
    ensures { result.now ≡ helper_name helper }
{
    match helper {
        Helper::Add => b"lf_add",
        Helper::Subtract => b"lf_sub",
        Helper::Multiply => b"lf_mul",
        Helper::Divide => b"lf_div",
        Helper::Power => b"lf_pow",
        Helper::Remainder => b"lf_mod",
        Helper::Modulo => b"lf_modulo",
        Helper::Least => b"lf_min",
        Helper::Greatest => b"lf_max",
        Helper::Sign => b"lf_sign",
        Helper::Fit => b"lf_fit",
        Helper::Count => b"lf_count",
    }
}

fn may_trap(helper: Helper) -> bool
    ensures { result ≡ may_trap helper }
{
    !matches!(helper, Helper::Least | Helper::Greatest)
}

impl Writer {
    /// No lines, no values and no temporaries. It takes no memory.
    pub(crate) fn new(alloc: Global) -> Writer
        ensures { result ≡ nothing_written }
    {
        Writer {
            alloc,
            lines: Items::new(alloc),
            values: 0,
            temps: BTreeMap::new(alloc),
        }
    }

    /// The allocator of the lines.
    pub(crate) fn allocator(&self) -> Global {
        self.alloc
    }

    /// The lines of the block that is open.
    pub(crate) fn into_lines(self) -> Items<CStmt>
        ensures { result ≡ self.lines }
    {
        self.lines
    }

    /// Writes a line. It fails only for want of memory.
    pub(crate) fn line(&mut self, stmt: CStmt) -> Result<(), Memory>
        ensures { Writes self.old self.new result (line stmt) }
    {
        self.lines.push(stmt)?;
        Ok(())
    }

    /// Opens a block with these lines, and returns those of the block that was open.
    pub(crate) fn exchange(&mut self, lines: Items<CStmt>) -> Items<CStmt>
        ensures lines { result ≡ self.old.lines }
        ensures rest { self.new ≡ with_lines self.old lines }
    {
        mem::replace(&mut self.lines, lines)
    }

    /// Opens a block without lines, and returns the lines of the block that was open.
    pub(crate) fn open(&mut self) -> Items<CStmt>
        ensures lines { result ≡ self.old.lines }
        ensures rest { self.new ≡ with_lines self.old [] }
    {
        let none = Items::new(self.alloc);
        self.exchange(none)
    }

    /// The type of a temporary of the tree.
    pub(crate) fn temp_type(&self, number: u64) -> ScalarType
        ensures { result ≡ temp_type self.now.temps number }
    {
        match self.temps.get(&number) {
            Some(ty) => *ty,
            None => ScalarType::Integer4,
        }
    }

    fn set_type(&mut self, number: u64, ty: ScalarType) -> Result<(), Memory>
        ensures { Types number ty self.old self.new result }
    {
        match self.temps.insert(number, ty) {
            Ok(_) => {}
            Err(_) => return Err(Memory),
        }
        Ok(())
    }

    // The number of the next value. There is no memory for as many values as there are numbers.
    fn draw(&mut self) -> Result<u64, Memory>
        ensures { Draws self.old self.new result }
    {
        match self.values.checked_add(1) {
            Some(number) => {
                self.values = number;
                Ok(number)
            }
            None => Err(Memory),
        }
    }

    /// Writes a line that computes the next value, and returns its number. It fails only for want of memory.
    pub(crate) fn computed(&mut self, value: CExpr) -> Result<u64, Memory>
        ensures { Writes self.old self.new result (computed value) }
    {
        let number = self.draw()?;
        let name = names::value_name(self.alloc, number)?;
        self.line(CStmt::DeclareValue {
            kind: CType::Int64,
            name,
            value,
        })?;
        Ok(number)
    }

    // Writes where a trap of the next line shows.
    fn locate(&mut self, here: Located<'_>) -> Result<(), Memory>
        ensures { Writes self.old self.new result (locating true (location here.entry)) }
    {
        let target = cexpr::object(self.alloc, b"lf_name")?;
        let value = cexpr::text(self.alloc, here.source)?;
        self.line(CStmt::Assign { target, value })?;
        let target = cexpr::object(self.alloc, b"lf_line")?;
        self.line(CStmt::Assign {
            target,
            value: CExpr::Constant {
                value: u64::from(here.line),
            },
        })
    }

    fn call(&mut self, helper: Helper, arguments: Items<CExpr>) -> Result<u64, Memory>
        ensures { Writes self.old self.new result (calling helper arguments) }
    {
        let number = self.draw()?;
        let name = names::value_name(self.alloc, number)?;
        let callee = Name::new(self.alloc, helper_name(helper))?;
        self.line(CStmt::DeclareCall {
            kind: CType::Int64,
            name,
            callee,
            arguments,
        })?;
        Ok(number)
    }

    /// Writes the lines that compute the next value by a function of the prelude, and returns its number. It fails only
    /// for want of memory.
    pub(crate) fn helped(
        &mut self,
        here: Located<'_>,
        helper: Helper,
        arguments: Items<CExpr>,
    ) -> Result<u64, Memory>
        ensures { Writes self.old self.new result (helped (location here.entry) helper arguments) }
    {
        if may_trap(helper) {
            self.locate(here)?;
        }
        self.call(helper, arguments)
    }

    /// Writes the line that gives a temporary of the tree a value, and remembers its type. It fails only for want of
    /// memory.
    pub(crate) fn declare_temp(&mut self, number: u64, value: Value) -> Result<(), Memory>
        ensures { Writes self.old self.new result (declare_temp number value) }
    {
        let name = names::temp_name(self.alloc, number)?;
        let given = cexpr::value_of(self.alloc, value.number)?;
        self.line(CStmt::DeclareValue {
            kind: CType::Int64,
            name,
            value: given,
        })?;
        self.set_type(number, value.ty)
    }
}
