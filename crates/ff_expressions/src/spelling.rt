ghost use Rattle.std.specs.Prelude.{◌≡◌, ◌≤◌, [], ◌∷◌, ◌++◌, false, length, IfOk, OnOk};
ghost use Rattle.ff_expressions.specs.Signs.{digits_of, kind_of, suffix_of, text_behind, text_value};

use lf_base::Memory;
use sqlite_items::Items;
use std::alloc::Global;

fn push(items: &mut Items<u8>, byte: u8) -> Result<(), Memory>
    ensures { OnOk result (items.new ≡ items.old ++ byte ∷ []) }
{
    items.push(byte)?;
    Ok(())
}

/// The digits of an integer literal.
pub fn digits(alloc: Global, bytes: &[u8]) -> Result<Items<u8>, Memory>
    ensures { IfOk result (λ i. i ≡ digits_of bytes.now) }
{
    let mut digits = Items::new(alloc);
    for byte in bytes {
        if *byte == b'_' {
            return Ok(digits);
        }
        push(&mut digits, *byte)?;
    }
    Ok(digits)
}

fn kind(bytes: &[u8]) -> u8
    ensures { result ≡ kind_of bytes.now }
{
    match bytes {
        [b'4'] => 4,
        [b'8'] => 8,
        _ => 0,
    }
}

/// The suffix of an integer literal: 4 or 8, or 0 for none.
pub fn suffix(bytes: &[u8]) -> u8
    ensures { result ≡ suffix_of bytes.now }
{
    for at in 0..bytes.len() {
        if bytes[at] == b'_' {
            return kind(&bytes[at + 1..]);
        }
    }
    0
}

// The value of the bytes behind the first delimiter.
fn text_behind(alloc: Global, delimiter: u8, bytes: &[u8]) -> Result<Items<u8>, Memory>
    ensures { IfOk result (λ i. i ≡ text_behind delimiter false bytes.now) }
{
    let mut value = Items::new(alloc);
    let mut is_passed = false;
    for byte in bytes {
        if *byte == delimiter && !is_passed {
            is_passed = true;
        } else {
            push(&mut value, *byte)?;
            is_passed = false;
        }
    }
    Ok(value)
}

/// The value of a character literal.
pub fn text(alloc: Global, bytes: &[u8]) -> Result<Items<u8>, Memory>
    ensures { IfOk result (λ i. i ≡ text_value bytes.now) }
{
    match bytes {
        [delimiter, rest @ ..] => text_behind(alloc, *delimiter, rest),
        [] => Ok(Items::new(alloc)),
    }
}
