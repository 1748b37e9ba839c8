//! Program units and the procedures in them.

ghost use Rattle.std.specs.Prelude.{[], ◌∷◌};
ghost use Rattle.lf_base.specs.Contents.{joined};
ghost use Rattle.ast_nodes.specs.Prints.{Prints};
ghost use Rattle.ast_nodes.specs.Node.{behind_blank, listed};
ghost use Rattle.ast_nodes.specs.Text.{procedure_text, procedure_texts, unit_text, line_text, line_texts};

use crate::file::{Procedure, Unit};
use crate::print::declaration::{put_decls, put_optional_type};
use crate::print::piece::{
    Ended, put, put_name, put_names, put_number, put_optional_name, put_tag,
};
use crate::print::statement::put_stmts;
use lf_base::Sink;

#[tactic(auto, using(crate::proofs::Chains::chains))]
fn put_procedure<O: Sink>(before: Ended, out: &mut O, procedure: &Procedure) -> Ended
    ensures { Prints O.contents O.faults O.may_fail O.takes_memory O.keeps before result out.old out.new (procedure_text procedure.now) }
{
    let ended = put_tag(before, out, b"Proc");
    let ended = put_number(ended, out, procedure.line);
    let ended = put_name(ended, out, &procedure.name);
    let ended = put_number(ended, out, u32::from(procedure.is_function));
    let ended = put_optional_type(ended, out, &procedure.type_spec);
    let ended = put_names(ended, out, procedure.dummies.as_slice());
    let ended = put_optional_name(ended, out, &procedure.result);
    let ended = put_decls(ended, out, procedure.decls.as_slice());
    let ended = put_stmts(ended, out, procedure.stmts.as_slice());
    put(ended, out, b")")
}

#[tactic(auto, using(crate::proofs::Chains::chains))]
fn put_led_procedure<O: Sink>(
    before: Ended,
    out: &mut O,
    lead: &[u8],
    procedure: &Procedure,
) -> Ended
    ensures { Prints O.contents O.faults O.may_fail O.takes_memory O.keeps before result out.old out.new (joined (lead.now ∷ procedure_text procedure.now ∷ [])) }
{
    let ended = put(before, out, lead);
    put_procedure(ended, out, procedure)
}

#[tactic(auto, using(crate::proofs::Chains::lists))]
fn put_procedures<O: Sink>(before: Ended, out: &mut O, procedures: &[Procedure]) -> Ended
    ensures { Prints O.contents O.faults O.may_fail O.takes_memory O.keeps before result out.old out.new (behind_blank (listed (procedure_texts procedures.now))) }
{
    let mut ended = put(before, out, b" [");
    let mut lead: &[u8] = b"";
    for procedure in procedures {
        ended = put_led_procedure(ended, out, lead, procedure);
        lead = b" ";
    }
    put(ended, out, b"]")
}

#[tactic(auto, using(crate::proofs::Chains::chains))]
fn put_unit<O: Sink>(before: Ended, out: &mut O, unit: &Unit) -> Ended
    ensures { Prints O.contents O.faults O.may_fail O.takes_memory O.keeps before result out.old out.new (unit_text unit.now) }
{
    match unit {
        Unit::Program {
            line,
            name,
            decls,
            stmts,
            procs,
        } => {
            let ended = put_tag(before, out, b"Program");
            let ended = put_number(ended, out, *line);
            let ended = put_name(ended, out, name);
            let ended = put_decls(ended, out, decls.as_slice());
            let ended = put_stmts(ended, out, stmts.as_slice());
            let ended = put_procedures(ended, out, procs.as_slice());
            put(ended, out, b")")
        }
        Unit::Module {
            line,
            name,
            decls,
            procs,
        } => {
            let ended = put_tag(before, out, b"Module");
            let ended = put_number(ended, out, *line);
            let ended = put_name(ended, out, name);
            let ended = put_decls(ended, out, decls.as_slice());
            let ended = put_procedures(ended, out, procs.as_slice());
            put(ended, out, b")")
        }
    }
}

#[tactic(auto, using(crate::proofs::Chains::chains))]
fn put_line<O: Sink>(before: Ended, out: &mut O, unit: &Unit) -> Ended
    ensures { Prints O.contents O.faults O.may_fail O.takes_memory O.keeps before result out.old out.new (line_text unit.now) }
{
    let ended = put_unit(before, out, unit);
    put(ended, out, b"\n")
}

#[tactic(auto, using(crate::proofs::Chains::loops))]
pub(crate) fn put_lines<O: Sink>(before: Ended, out: &mut O, units: &[Unit]) -> Ended
    ensures { Prints O.contents O.faults O.may_fail O.takes_memory O.keeps before result out.old out.new (joined (line_texts units.now)) }
{
    let mut ended = before;
    for unit in units {
        ended = put_line(ended, out, unit);
    }
    ended
}
