//! The top of a stack, which stands last.
ghost use Rattle.std.specs.Prelude.{◌≡◌, [], ◌∷◌, ◌++◌, ◌-◌, ◌<◌, length, take, OnOk, OnErr, MatchOption};

use lf_base::Memory;

// The last one.
pub(crate) fn top_of<X: Copy>(stack: &[X]) -> Option<X>
    ensures { MatchOption result (stack.now ≡ []) (λ top. stack.now ≡ take (length stack.now - 1) stack.now ++ top ∷ []) }
{
    stack.last().copied()
}

// Puts others into the place of the last one.
pub(crate) fn replace_top<X: Copy>(stack: &mut Vec<X>, with: &mut Vec<X>) -> Result<(), Memory>
    requires { 0 < length stack.old.items }
    ensures ok { OnOk result (stack.new.items ≡ take (length stack.old.items - 1) stack.old.items ++ with.old.items) }
    ensures err { OnErr result (stack.new.items ≡ stack.old.items) }
{
    let top = stack.len() - 1;
    match stack.append(with) {
        Ok(()) => {}
        Err(_) => return Err(Memory),
    }
    let _ = stack.remove(top);
    Ok(())
}
