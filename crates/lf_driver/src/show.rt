ghost use Rattle.std.specs.Prelude.{◌≡◌, IfOk};
ghost use Rattle.ast_nodes.specs.Text.{ast_text};
ghost use Rattle.lf_driver.specs.Ends.{Counts};
ghost use Rattle.lf_driver.specs.Front.{front_of};
ghost use Rattle.lf_driver.specs.Show.{GivesTree, TextShows, FileShows};

use crate::front::read_tree;
use crate::outcome::Answer;
use ast_nodes::{File, print_ast};
use lf_base::{GetFault, Memory, PutFault, Rule, Sink, Store, SureSink, SyntaxFault};
use std::alloc::Global;

fn tree_bytes(alloc: Global, file: &File) -> Result<SureSink, Memory>
    ensures { IfOk result (λ s. s ≡ ast_text file.now) }
{
    let mut sink = SureSink::new(alloc)?;
    match print_ast(file, &mut sink) {
        Ok(()) => Ok(sink),
        Err(_) => Err(Memory),
    }
}

// The text of the tree of a source.
fn tree_text(alloc: Global, source: &[u8]) -> Result<SureSink, SyntaxFault>
    ensures { GivesTree result (front_of source.now) }
{
    match read_tree(alloc, source) {
        Ok(file) => match tree_bytes(alloc, &file) {
            Ok(text) => Ok(text),
            Err(Memory) => Err(SyntaxFault::Memory),
        },
        Err(fault) => Err(fault),
    }
}

// What comes of a file whose text was read. The whole text is put at once, and only where it could be made.
#[tactic(auto, using(crate::proofs::Showing::tree_shown, crate::proofs::Showing::front_shown, crate::proofs::Showing::tree_refused))]
fn show_text<'a, O: Sink>(alloc: Global, file: &'a str, source: &[u8], out: &mut O) -> Answer<'a>
    ensures shows { TextShows O.may_fail O.takes_memory result file.now source.now (O.contents out.old) (O.contents out.new) }
    ensures keeps { O.keeps out.old out.new }
    ensures counts { Counts result 0 0 (O.faults out.old) (O.faults out.new) }
{
    match tree_text(alloc, source) {
        Ok(text) => match out.put(text.bytes()) {
            Ok(()) => Answer::Done,
            Err(PutFault::Failed) => Answer::WriteFault,
            Err(PutFault::Memory) => Answer::Memory,
        },
        Err(SyntaxFault::At { line, rule }) => Answer::Refused {
            name: file,
            line,
            rule,
        },
        Err(SyntaxFault::Memory) => Answer::Memory,
    }
}

/// What comes of a file of this name, whose tree is printed. The store is read and not changed.
#[tactic(auto, using(crate::proofs::Showing::shows_too_long, crate::proofs::Showing::shows_absent, crate::proofs::Showing::text_shows))]
pub(crate) fn show_file<'a, S: Store, O: Sink>(
    alloc: Global,
    file: &'a str,
    store: &mut S,
    out: &mut O,
) -> Answer<'a>
    ensures shows { FileShows O.may_fail O.takes_memory result file.now (S.files store.old) (O.contents out.old) (O.contents out.new) }
    ensures keeps { O.keeps out.old out.new }
    ensures files { S.files store.new ≡ S.files store.old }
    ensures pending { S.pending store.new ≡ S.pending store.old }
    ensures bytes { S.contents store.new ≡ S.contents store.old }
    ensures writes { S.Sink.faults store.new ≡ S.Sink.faults store.old }
    ensures counts { Counts result (S.read_faults store.old) (S.read_faults store.new) (O.faults out.old) (O.faults out.new) }
{
    match store.read(alloc, file) {
        Ok(bytes) => show_text(alloc, file, bytes.as_slice(), out),
        Err(GetFault::Absent) => Answer::Absent { name: file },
        Err(GetFault::TooLong) => Answer::Refused {
            name: file,
            line: 1,
            rule: Rule::E108,
        },
        Err(GetFault::Failed) => Answer::ReadFault,
        Err(GetFault::Memory) => Answer::Memory,
    }
}
