ghost use Rattle.std.specs.Prelude.{◌≡◌, false, None, map, string_bytes};
ghost use Rattle.lf_driver.specs.Call.{held, stored};
ghost use Rattle.lf_driver.specs.Ends.{Performs};
ghost use Rattle.lf_driver.specs.Headline.{Promises};
ghost use Rattle.lf_driver.specs.Words.{words_of, shows};

use crate::command::{Verb, words as read_words};
use crate::compile::compile_file;
use crate::outcome::{Answer, report};
use crate::show::show_file;
use crate::sort::sort_files;
use lf_base::{Sink, Source, Store};
use std::alloc::Global;

// What comes of the words. Words that are no command leave all as it is.
#[tactic(auto, using(crate::proofs::Names::command_files))]
fn perform<'a, S: Store, O: Sink>(
    alloc: Global,
    words: &'a [String],
    store: &mut S,
    out: &mut O,
) -> Answer<'a>
    ensures comes { Performs result (map string_bytes words.now) (stored (S.files store.old) (S.pending store.old) (S.contents store.old) (S.read_faults store.old) (S.Sink.faults store.old)) (stored (S.files store.new) (S.pending store.new) (S.contents store.new) (S.read_faults store.new) (S.Sink.faults store.new)) (held O.may_fail O.takes_memory (O.contents out.old) (O.faults out.old)) (held O.may_fail O.takes_memory (O.contents out.new) (O.faults out.new)) }
    ensures usage { words_of (map string_bytes words.now) ≡ None → store.new ≡ store.old }
    ensures out { shows (words_of (map string_bytes words.now)) ≡ false → out.new ≡ out.old }
    ensures keeps { O.keeps out.old out.new }
{
    match read_words(words) {
        Err(_) => Answer::Usage,
        Ok(command) => match command.verb {
            Verb::Compile => match command.files {
                [file, ..] => compile_file(alloc, file.as_str(), store),
                [] => Answer::Usage,
            },
            Verb::Ast => match command.files {
                [file, ..] => show_file(alloc, file.as_str(), store, out),
                [] => Answer::Usage,
            },
            Verb::Order => sort_files(alloc, command.files, store, out),
        },
    }
}

/// Does what the words say and answers the status.
///
/// - 0: `compile` has written the C file of each source, `ast` has shown the tree, or `order` has shown the names of
///   the sources in the order in which they compile.
/// - 1: a source breaks a rule, which is told with its line.
/// - 2: the words are no command, or name a file that is not there.
/// - 3: a read failed. 4: a write failed. 5: memory ran out.
/// - 8: the sources of `order` wait for one another, which is told by their names.
///
/// Words that are no command leave the store, the input and the output as they were. `ast`, `order` and a source that is
/// refused begin no file. At 0 of `compile` the C files mean what the sources say, where the store tells its files.
pub fn lf_main<S: Store, I: Source, O: Sink, E: Sink>(
    alloc: Global,
    words: &[String],
    store: &mut S,
    input: &mut I,
    out: &mut O,
    err: &mut E,
) -> u8
    ensures call { Promises result (record {
      words = map string_bytes words.now;
      store = stored (S.files store.old) (S.pending store.old) (S.contents store.old) (S.read_faults store.old) (S.Sink.faults store.old);
      store' = stored (S.files store.new) (S.pending store.new) (S.contents store.new) (S.read_faults store.new) (S.Sink.faults store.new);
      out = held O.may_fail O.takes_memory (O.contents out.old) (O.faults out.old);
      out' = held O.may_fail O.takes_memory (O.contents out.new) (O.faults out.new);
      err = held E.may_fail E.takes_memory (E.contents err.old) (E.faults err.old);
      err' = held E.may_fail E.takes_memory (E.contents err.new) (E.faults err.new);
    }) }
    ensures usage { words_of (map string_bytes words.now) ≡ None → store.new ≡ store.old }
    ensures out { shows (words_of (map string_bytes words.now)) ≡ false → out.new ≡ out.old }
    ensures input { input.new ≡ input.old }
    ensures keeps_out { O.keeps out.old out.new }
    ensures keeps_err { E.keeps err.old err.new }
{
    let came = perform(alloc, words, store, out);
    let told = report(err, came);
    told.status()
}
