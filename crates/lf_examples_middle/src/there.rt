//! What calls ask for is tried before them, since the check knows nothing of what ran before.
ghost use Rattle.std.specs.Prelude.{◌≡◌, true, IfOk};

/// What a call asks for is not there.
#[derive(Debug, Drop)]
pub(crate) struct NotThere;

pub(crate) fn there(is_there: bool) -> Result<(), NotThere>
    ensures { IfOk result (λ done. is_there ≡ true) }
{
    if is_there { Ok(()) } else { Err(NotThere) }
}
