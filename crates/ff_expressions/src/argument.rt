ghost use Rattle.std.specs.Prelude.{◌≡◌, IfOk};
ghost use Rattle.ff_expressions.specs.Expressions.{arguments_of};

use crate::group::{Arguments, GroupRole, values};
use crate::item::Part;
use crate::queue::Queue;
use lf_base::Memory;
use std::alloc::Global;

/// The arguments that the parts of a group are: expressions and triplets (ISO/IEC 1539-1:2018, R1523, R920). None where
/// a part is neither.
pub fn arguments(alloc: Global, parts: Queue<Part>) -> Result<Option<Arguments>, Memory>
    ensures { IfOk result (λ r. r ≡ arguments_of parts) }
{
    values(alloc, GroupRole::Argument, parts)
}
