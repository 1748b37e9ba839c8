//! The output statements of a unit.
ghost use Rattle.std.specs.Prelude.{◌≡◌, ◌≢◌, IfOk, OnOk, option_map};
ghost use Rattle.lf_base.specs.declared.id.SymId.{SymId as SymbolId};
ghost use Rattle.asr_nodes.specs.OnePlace.{UnitStandsAlone};
ghost use Rattle.asr_nodes.specs.Units.{IsUnit, unit_tree};
ghost use Rattle.pass_array_op.specs.Bodies.{LowersOr};
ghost use Rattle.pass_array_op.specs.Greatest.{first_free};
ghost use Rattle.pass_array_op.specs.Units.{body_of, lowered_unit};

use crate::body::lower_statements;
use crate::greatest::first_free;
use asr_nodes::{Asr, Symbol};
use lf_base::{Memory, StmtId, SymId};

/// The statements of a unit itself, which a module has none of.
fn own_body(asr: &Asr, unit: SymId) -> Result<Vec<StmtId>, Memory>
    requires { IsUnit asr.now unit }
    ensures { IfOk result (λ body. body.items ≡ body_of asr.now unit) }
{
    let mut body = Vec::new(asr.allocator());
    match asr.symbol(unit) {
        Symbol::Program { body: ids, .. } => match body.extend_from_slice(ids.as_slice()) {
            Ok(()) => Ok(body),
            Err(_) => Err(Memory),
        },
        _ => Ok(body),
    }
}

/// Lowers the statements of a unit itself, as `lower_statements` does, with numbers from the first one that is greater
/// than that of every temporary below them. The bodies of its procedures stay.
///
/// It fails for want of memory, and where the numbers run out at 2 to the 64th; then the tree is not to be used.
pub fn lower_implied_do(asr: &mut Asr, unit: SymId) -> Result<(), Memory>
    requires unit { IsUnit asr.old unit }
    requires alone { UnitStandsAlone asr.old unit }
    ensures body { LowersOr asr.old asr.new (body_of asr.old unit) (first_free asr.old (body_of asr.old unit)) result }
    ensures tree { OnOk result (unit_tree asr.new unit ≡ option_map (lowered_unit (first_free asr.old (body_of asr.old unit))) (unit_tree asr.old unit)) }
    ensures others { OnOk result ((id : SymbolId) → id.0 ≢ unit.0 → unit_tree asr.new id ≡ unit_tree asr.old id) }
    ensures alone { OnOk result (UnitStandsAlone asr.new unit) }
{
    asr.sound();
    asr.arena().linked();
    let body = own_body(asr, unit)?;
    let number = first_free(asr, &body)?;
    lower_statements(asr, &body, number)
}
