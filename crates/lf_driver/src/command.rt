ghost use Rattle.std.specs.Prelude.{◌≡◌, map, string_bytes};
ghost use Rattle.std.specs.List.{list_all};
ghost use Rattle.lf_driver.specs.Words.{begins_with_hyphen, is_source_name, takes_files, verb_of, with_files, CommandGives, WordsGive};

/// What the program is asked to do.
#[derive(Clone, Copy, Debug, PartialEq, Eq)]
pub enum Verb {
    /// Compiles each file into the store.
    Compile,
    /// Prints the tree of a file.
    Ast,
    /// Prints the names of the files in the order in which they compile.
    Order,
}

/// The words of a command line, read.
#[derive(Clone, Copy)]
pub struct Command<'a> {
    pub verb: Verb,
    /// 0: the verb takes no number.
    pub number: u64,
    pub files: &'a [String],
}

/// The words are no command.
#[derive(Clone, Copy, Debug, PartialEq, Eq)]
pub struct Usage;

fn begins_with_hyphen(word: &[u8]) -> bool
    ensures { result ≡ begins_with_hyphen word.now }
{
    match word {
        [first, ..] => *first == b'-',
        [] => false,
    }
}

fn is_source_name(word: &[u8]) -> bool
    ensures { result ≡ is_source_name word.now }
{
    4 <= word.len() && word.len() <= 255 && !begins_with_hyphen(word) && word.ends_with(b".f90")
}

fn verb_named(word: &[u8]) -> Option<Verb>
    ensures { result ≡ verb_of word.now }
{
    if word == b"compile".as_slice() {
        Some(Verb::Compile)
    } else if word == b"ast".as_slice() {
        Some(Verb::Ast)
    } else if word == b"order".as_slice() {
        Some(Verb::Order)
    } else {
        None
    }
}

// Whether the verb takes so many files.
fn takes_files(verb: Verb, count: usize) -> bool
    ensures { result ≡ takes_files verb count }
{
    match verb {
        Verb::Compile | Verb::Ast => count == 1,
        Verb::Order => 1 <= count,
    }
}

fn are_source_names(files: &[String]) -> bool
    ensures { result ≡ list_all is_source_name (map string_bytes files.now) }
{
    for file in files {
        if !is_source_name(file.as_bytes()) {
            return false;
        }
    }
    true
}

// The command of a verb and its files.
fn with_files(verb: Option<Verb>, files: &[String]) -> Result<Command, Usage>
    ensures { CommandGives result (with_files verb (map string_bytes files.now)) }
{
    match verb {
        Some(verb) => {
            if takes_files(verb, files.len()) && are_source_names(files) {
                Ok(Command {
                    verb,
                    number: 0,
                    files,
                })
            } else {
                Err(Usage)
            }
        }
        None => Err(Usage),
    }
}

/// The command that the words are: `compile` or `ast` with one file, or `order` with one or more. The name of a
/// file ends in `.f90`, does not begin with `-` and has 4 to 255 bytes. All other words are refused.
pub fn words(words: &[String]) -> Result<Command, Usage>
    ensures { WordsGive result (map string_bytes words.now) }
{
    match words {
        [first, files @ ..] => with_files(verb_named(first.as_bytes()), files),
        [] => Err(Usage),
    }
}
