ghost use Rattle.std.specs.Prelude.{◌≡◌, ◌≤◌, length, take, true, IfOk, string_bytes};
ghost use Rattle.std.specs.Str.{IsCharBoundary};
ghost use Rattle.lf_outside.specs.Names.{folder_of, last_of, longest_front, is_own, IsFront, IsTemporary};

use lf_base::Memory;
use std::alloc::Global;

/// The ending of the names that a store takes for itself.
const OWN_ENDING: &[u8] = b".tmp";

/// The most bytes of a front of a name in a temporary name, so that its last part fits 255 bytes.
const LONGEST_FRONT: usize = 232;

/// Whether a name is one that a store takes for itself: whether it ends in `.tmp`.
pub fn is_own(name: &str) -> bool
    ensures { result ≡ is_own name.now }
{
    name.as_bytes().ends_with(OWN_ENDING)
}

// How many bytes of a name are its folder, the last slash among them.
fn folder_length(name: &str) -> usize
    ensures within { result ≤ length name.now }
    ensures folder { take result name.now ≡ folder_of name.now }
    ensures boundary { IsCharBoundary name.now result }
{
    let bytes = name.as_bytes();
    let mut end = bytes.len();
    while end > 0 {
        if bytes[end - 1] == b'/' {
            return end;
        }
        end -= 1;
    }
    0
}

/// The folder of a name with the slash behind it, and the part behind the folder. A name without a slash has
/// an empty folder.
pub fn parts(name: &str) -> (&str, &str)
    ensures folder { result.0.now ≡ folder_of name.now }
    ensures last { result.1.now ≡ last_of name.now }
{
    name.split_at(folder_length(name))
}

// As many characters of a text as fit a temporary name.
fn front_of(text: &str) -> &str
    ensures { IsFront text.now result.now }
{
    let (front, _rest) = text.split_at(text.floor_char_boundary(LONGEST_FRONT));
    front
}

/// The temporary name of this number for a file: in the file's folder, with a dot and a front of the file's
/// last part, cut so that it fits, and the ending `.lf-NUMBER.tmp`. It fails only for want of memory.
pub fn temporary_name(alloc: Global, name: &str, number: u32) -> Result<String, Memory>
    ensures temporary { IfOk result (λ t. IsTemporary name.now number (string_bytes t)) }
    ensures own { IfOk result (λ t. is_own (string_bytes t) ≡ true) }
{
    let (folder, last) = parts(name);
    let front = front_of(last);
    Ok(format!(in alloc; "{folder}.{front}.lf-{number}.tmp")?)
}
