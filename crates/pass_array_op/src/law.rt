//! Laws of the definitions: each is the contract of a function that does nothing.
ghost use Rattle.std.specs.Prelude.{◌≡◌};
ghost use Rattle.pass_array_op.specs.Examples.{after, before};
ghost use Rattle.pass_array_op.specs.Lowering.{lowered_body};

/// A small body, with the numbers from 4 on.
pub fn small_body_is_lowered()
    ensures becomes { (lowered_body before).from 4 ≡ after }
    ensures draws { (lowered_body before).count ≡ 2 }
{}
