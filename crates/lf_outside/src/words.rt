ghost use Rattle.std.specs.Prelude.{◌≡◌, drop};

use lf_base::Memory;
use std::env;
use std::io::ErrorKind;

/// All words of the command line, the program's name first. A word that is not UTF-8 belongs to no command, so
/// where there is one, there are no words at all. It fails only for want of memory.
pub fn all_words(rt: &HostRuntime) -> Result<Vec<String>, Memory> {
    let mut words = Vec::new(rt.alloc());
    let all = match env::args(rt) {
        Ok(all) => all,
        Err(error) if error.kind() == ErrorKind::OutOfMemory => return Err(Memory),
        Err(_) => return Ok(words),
    };
    for word in all {
        words.push(word)?;
    }
    Ok(words)
}

/// The words behind the program's name, which is the first of all words.
pub fn behind_name(all: &[String]) -> &[String]
    ensures { result.now ≡ drop 1 all.now }
{
    match all {
        [] => all,
        [_, words @ ..] => words,
    }
}
