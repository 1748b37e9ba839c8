//! Prints the typed tree piece by piece. Each function is handed how the puts before it ended, puts nothing after a
//! failure, and hands on how its own ended.

ghost use Rattle.std.specs.Prelude.{◌≡◌, false, Ok, OnOk, OnErr};
ghost use Rattle.lf_base.specs.Causes.{HasCause};
ghost use Rattle.lf_base.specs.Contents.{Appends, AppendsPart};
ghost use Rattle.lf_base.specs.Puts.{Puts, Causes};
ghost use Rattle.asr_nodes.specs.Units.{IsUnit, text_of_unit};

mod expr;
mod field;
mod link;
mod node;
mod path;
mod piece;
mod stmt;
mod symbol;
mod ty;
mod unit;

use crate::asr::Asr;
use crate::print::piece::Ended;
use crate::print::unit::put_unit;
use lf_base::{PutFault, Sink, SymId};

// What `print_asr` says of the sink, each part by itself.
fn put_text<O: Sink>(before: Ended, out: &mut O, asr: &Asr, unit: SymId) -> Ended
    requires { IsUnit asr.now unit }
    ensures text { Puts before result (O.contents out.old) (O.contents out.new) (text_of_unit asr.now unit) }
    ensures cause { Causes O.may_fail O.takes_memory before result (O.faults out.old) (O.faults out.new) }
    ensures keeps { O.keeps out.old out.new }
{
    put_unit(before, out, asr, unit)
}

/// Appends the text of a main program or a module (ISO/IEC 1539-1:2018, R502) with all that stands in it, each of its
/// symbols on a line: a node is its tag and its fields in parentheses, a list stands in brackets, bytes in double
/// quotes, a missing part is `-`, and a symbol that is named is its path from the unit, with a point between names.
///
/// A refused call appends a front of the text, and it answers `Failed` only where the sink's count of faults rose. It
/// takes no memory itself: where the sink neither fails nor takes memory, the answer is Ok.
#[tactic(auto, using(lf_base::proofs::Chains::never_refused))]
pub fn print_asr<O: Sink>(asr: &Asr, unit: SymId, out: &mut O) -> Result<(), PutFault>
    requires { IsUnit asr.now unit }
    ensures ok { OnOk result (Appends (O.contents out.old) (O.contents out.new) (text_of_unit asr.now unit)) }
    ensures err { OnErr result (AppendsPart (O.contents out.old) (O.contents out.new) (text_of_unit asr.now unit)) }
    ensures cause { HasCause O.may_fail O.takes_memory (O.faults out.old) (O.faults out.new) result }
    ensures whole { O.may_fail ≡ false → O.takes_memory ≡ false → result ≡ Ok tt }
    ensures keeps { O.keeps out.old out.new }
{
    put_text(Ok(()), out, asr, unit)
}
