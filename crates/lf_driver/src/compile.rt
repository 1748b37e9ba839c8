ghost use Rattle.std.specs.Prelude.{◌≡◌, true, string_bytes, OnOk, OnErr, IfOk};
ghost use Rattle.lf_base.specs.Causes.{HasCause};
ghost use Rattle.c_nodes.specs.Text.{file_text};
ghost use Rattle.lf_driver.specs.Words.{ends_as_source};
ghost use Rattle.lf_driver.specs.OnePrint.Built.{program_in};
ghost use Rattle.lf_driver.specs.Verdict.{c_name};
ghost use Rattle.lf_driver.specs.Ends.{Counts};
ghost use Rattle.lf_driver.specs.Compile.{GivesC, GivesText, IsPending, IsPendingC, Saved, TextComesTo, FileComesTo, Begins};

use crate::front::read_tree;
use crate::one_print::unit::lower;
use crate::outcome::Answer;
use ast_nodes::File;
use c_nodes::{CFile, print_c};
use lf_base::{GetFault, Memory, PutFault, Rule, Store, SureSink, SyntaxFault};
use std::alloc::Global;

// `.c` in place of `.f90`.
#[tactic(auto, using(crate::proofs::Names::stem_is))]
fn c_name(alloc: Global, file: &str) -> Result<String, Memory>
    requires { ends_as_source file.now ≡ true }
    ensures { IfOk result (λ n. string_bytes n ≡ c_name file.now) }
{
    let stem = file.strip_suffix(".f90").unwrap_or(file);
    let Ok(mut name) = String::from_str(alloc, stem) else {
        return Err(Memory);
    };
    match name.push_str(".c") {
        Ok(()) => Ok(name),
        Err(_) => Err(Memory),
    }
}

fn c_bytes(alloc: Global, file: &CFile) -> Result<SureSink, Memory>
    ensures { IfOk result (λ s. s ≡ file_text file.now) }
{
    let mut sink = SureSink::new(alloc)?;
    match print_c(file, &mut sink) {
        Ok(()) => Ok(sink),
        Err(_) => Err(Memory),
    }
}

fn c_text(alloc: Global, name: &str, file: &File) -> Result<SureSink, SyntaxFault>
    ensures { GivesC name.now result (program_in file.now) }
{
    match lower(alloc, name.as_bytes(), file) {
        Ok(file) => match c_bytes(alloc, &file) {
            Ok(text) => Ok(text),
            Err(Memory) => Err(SyntaxFault::Memory),
        },
        Err(fault) => Err(fault),
    }
}

// The text of the C file of a source.
#[tactic(auto, using(crate::proofs::Saving::compiled, crate::proofs::Saving::not_built, crate::proofs::Saving::not_parsed))]
fn translated(alloc: Global, name: &str, source: &[u8]) -> Result<SureSink, SyntaxFault>
    ensures { GivesText name.now result source.now }
{
    match read_tree(alloc, source) {
        Ok(file) => c_text(alloc, name, &file),
        Err(fault) => Err(fault),
    }
}

/// Puts a file into the store.
fn save<S: Store>(store: &mut S, name: &str, bytes: &[u8]) -> Result<(), PutFault>
    ensures ok { OnOk result (Saved (S.files store.old) name.now bytes.now (S.files store.new)) }
    ensures err { OnErr result (S.files store.new ≡ S.files store.old) }
    ensures pending { IsPending result name.now (S.pending store.new) }
    ensures read_faults { S.read_faults store.new ≡ S.read_faults store.old }
    ensures cause { HasCause S.Sink.may_fail S.Sink.takes_memory (S.Sink.faults store.old) (S.Sink.faults store.new) result }
{
    store.start(name)?;
    store.put(bytes)?;
    store.finish()
}

// Puts the C file of a source into the store. Its name takes memory.
#[tactic(auto, using(crate::proofs::Saving::pending_c, crate::proofs::Saving::takes_too))]
fn write_file<S: Store>(
    alloc: Global,
    file: &str,
    text: &[u8],
    store: &mut S,
) -> Result<(), PutFault>
    requires { ends_as_source file.now ≡ true }
    ensures ok { OnOk result (Saved (S.files store.old) (c_name file.now) text.now (S.files store.new)) }
    ensures err { OnErr result (S.files store.new ≡ S.files store.old) }
    ensures pending { IsPendingC result file.now (S.pending store.old) (S.pending store.new) }
    ensures read_faults { S.read_faults store.new ≡ S.read_faults store.old }
    ensures cause { HasCause S.Sink.may_fail true (S.Sink.faults store.old) (S.Sink.faults store.new) result }
{
    match c_name(alloc, file) {
        Ok(name) => save(store, name.as_str(), text),
        Err(_) => Err(PutFault::Memory),
    }
}

// What comes of a file whose text was read.
#[tactic(auto, using(crate::proofs::Saving::text_done, crate::proofs::Saving::text_refused))]
fn finish_file<'a, S: Store>(
    alloc: Global,
    file: &'a str,
    bytes: &[u8],
    store: &mut S,
) -> Answer<'a>
    requires { ends_as_source file.now ≡ true }
    ensures comes { TextComesTo result file.now bytes.now (S.files store.old) (S.files store.new) }
    ensures pending { Begins result file.now (S.pending store.old) (S.pending store.new) (S.contents store.old) (S.contents store.new) }
    ensures counts { Counts result (S.read_faults store.old) (S.read_faults store.new) (S.Sink.faults store.old) (S.Sink.faults store.new) }
{
    match translated(alloc, file, bytes) {
        Ok(text) => match write_file(alloc, file, text.bytes(), store) {
            Ok(()) => Answer::Done,
            Err(PutFault::Failed) => Answer::WriteFault,
            Err(PutFault::Memory) => Answer::Memory,
        },
        Err(SyntaxFault::At { line, rule }) => Answer::Refused {
            name: file,
            line,
            rule,
        },
        Err(SyntaxFault::Memory) => Answer::Memory,
    }
}

/// What comes of a file of this name. The files of the store change only where it is `Done`.
#[tactic(auto, using(crate::proofs::Saving::too_long, crate::proofs::Saving::none_there, crate::proofs::Saving::text_there, crate::proofs::Saving::counts_after, crate::proofs::Saving::begins_after))]
pub(crate) fn compile_file<'a, S: Store>(alloc: Global, file: &'a str, store: &mut S) -> Answer<'a>
    requires { ends_as_source file.now ≡ true }
    ensures comes { FileComesTo result file.now (S.files store.old) (S.files store.new) }
    ensures pending { Begins result file.now (S.pending store.old) (S.pending store.new) (S.contents store.old) (S.contents store.new) }
    ensures counts { Counts result (S.read_faults store.old) (S.read_faults store.new) (S.Sink.faults store.old) (S.Sink.faults store.new) }
{
    match store.read(alloc, file) {
        Ok(bytes) => finish_file(alloc, file, bytes.as_slice(), store),
        Err(GetFault::Absent) => Answer::Absent { name: file },
        Err(GetFault::TooLong) => Answer::Refused {
            name: file,
            line: 1,
            rule: Rule::E108,
        },
        Err(GetFault::Failed) => Answer::ReadFault,
        Err(GetFault::Memory) => Answer::Memory,
    }
}
