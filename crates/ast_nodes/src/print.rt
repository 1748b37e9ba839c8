//! Prints a source's tree piece by piece. Each function is handed how the puts before it ended, puts nothing after
//! a failure, and hands on how its own ended.

ghost use Rattle.std.specs.Prelude.{◌≡◌, false, Ok, OnOk, OnErr};
ghost use Rattle.lf_base.specs.Causes.{HasCause};
ghost use Rattle.lf_base.specs.Contents.{Appends, AppendsPart};
ghost use Rattle.lf_base.specs.Puts.{Puts, Causes};
ghost use Rattle.ast_nodes.specs.Text.{ast_text};

mod declaration;
mod expression;
mod field;
mod piece;
mod statement;
mod unit;

use crate::file::File;
use crate::print::piece::Ended;
use crate::print::unit::put_lines;
use lf_base::{PutFault, Sink};

// What `print_ast` says of the sink, each part by itself.
fn put_file<O: Sink>(before: Ended, out: &mut O, file: &File) -> Ended
    ensures text { Puts before result (O.contents out.old) (O.contents out.new) (ast_text file.now) }
    ensures cause { Causes O.may_fail O.takes_memory before result (O.faults out.old) (O.faults out.new) }
    ensures keeps { O.keeps out.old out.new }
{
    put_lines(before, out, file.units.as_slice())
}

/// Appends the text of the tree, each program unit on one line (ISO/IEC 1539-1:2018, R501, R502): a node is its tag
/// and its fields in parentheses, a list stands in brackets, bytes in double quotes, and a missing part is `-`.
/// A refused call appends a front of the text, and it answers `Failed` only where the sink's count of faults
/// rose. It takes no memory itself: where the sink neither fails nor
/// takes memory, the answer is Ok.
#[tactic(auto, using(lf_base::proofs::Chains::never_refused))]
pub fn print_ast<O: Sink>(file: &File, out: &mut O) -> Result<(), PutFault>
    ensures ok { OnOk result (Appends (O.contents out.old) (O.contents out.new) (ast_text file.now)) }
    ensures err { OnErr result (AppendsPart (O.contents out.old) (O.contents out.new) (ast_text file.now)) }
    ensures cause { HasCause O.may_fail O.takes_memory (O.faults out.old) (O.faults out.new) result }
    ensures whole { O.may_fail ≡ false → O.takes_memory ≡ false → result ≡ Ok tt }
    ensures keeps { O.keeps out.old out.new }
{
    put_file(Ok(()), out, file)
}
