//! A call of the program over objects in memory.

use lf_base::{MemSink, MemStore, Memory, SureSource};
use lf_driver::lf_main;
use std::alloc::{AllocError, Global};

/// What a call leaves: its status, the texts on `out` and `err`, and the store.
#[derive(Drop)]
pub(crate) struct Left {
    pub(crate) status: u8,
    pub(crate) out: MemSink,
    pub(crate) err: MemSink,
    pub(crate) store: MemStore,
}

impl Left {
    /// Whether the call ended so, with these texts.
    pub(crate) fn is(&self, status: u8, out: &[u8], err: &[u8]) -> bool {
        self.status == status && self.out.bytes() == out && self.err.bytes() == err
    }
}

/// The calls of the store and of `out` that fail, by their numbers from 0.
#[derive(Clone, Copy)]
pub(crate) struct Failing {
    pub(crate) store: Option<u64>,
    pub(crate) out: Option<u64>,
}

const NO_FAILURE: Failing = Failing {
    store: None,
    out: None,
};

pub(crate) fn failed(_: Memory) -> AllocError {
    AllocError
}

fn text(alloc: Global, words: &[&str]) -> Result<Vec<String>, AllocError> {
    let mut all = Vec::new(alloc);
    for word in words {
        all.push(String::from_str(alloc, word)?)?;
    }
    Ok(all)
}

fn file_of(alloc: Global, name: &str, source: &[u8]) -> Result<(String, Vec<u8>), AllocError> {
    let name = String::from_str(alloc, name)?;
    Ok((name, Vec::from_slice(alloc, source)?))
}

fn files_of(alloc: Global, named: &[(&str, &[u8])]) -> Result<Vec<(String, Vec<u8>)>, AllocError> {
    let mut files = Vec::new(alloc);
    for (name, source) in named {
        files.push(file_of(alloc, name, source)?)?;
    }
    Ok(files)
}

fn calls_of(alloc: Global, call: Option<u64>) -> Result<Vec<u64>, AllocError> {
    let mut calls = Vec::new(alloc);
    if let Some(call) = call {
        calls.push(call)?;
    }
    Ok(calls)
}

fn sink_of(alloc: Global, call: Option<u64>) -> Result<MemSink, AllocError> {
    MemSink::new(alloc, calls_of(alloc, call)?).map_err(failed)
}

fn store_of(
    alloc: Global,
    named: &[(&str, &[u8])],
    call: Option<u64>,
) -> Result<MemStore, AllocError> {
    let files = files_of(alloc, named)?;
    MemStore::new(alloc, files, calls_of(alloc, call)?).map_err(failed)
}

/// Calls the program with these words, where the store has one file.
pub(crate) fn ran(
    alloc: Global,
    words: &[&str],
    name: &str,
    source: &[u8],
) -> Result<Left, AllocError> {
    ran_failing(alloc, words, &[(name, source)], NO_FAILURE)
}

/// Calls the program with these words, where the store has these files.
pub(crate) fn ran_over(
    alloc: Global,
    words: &[&str],
    named: &[(&str, &[u8])],
) -> Result<Left, AllocError> {
    ran_failing(alloc, words, named, NO_FAILURE)
}

/// The same where calls fail.
pub(crate) fn ran_failing(
    alloc: Global,
    words: &[&str],
    named: &[(&str, &[u8])],
    failing: Failing,
) -> Result<Left, AllocError> {
    let words = text(alloc, words)?;
    let mut store = store_of(alloc, named, failing.store)?;
    let mut out = sink_of(alloc, failing.out)?;
    let mut err = sink_of(alloc, None)?;
    let mut input = SureSource::new(Vec::new(alloc));
    let status = lf_main(
        alloc,
        words.as_slice(),
        &mut store,
        &mut input,
        &mut out,
        &mut err,
    );
    Ok(Left {
        status,
        out,
        err,
        store,
    })
}

/// The place of the first source that `ast s.f90` does not refuse with its line of text alone, if there is one.
pub(crate) fn first_not_refused(
    alloc: Global,
    cases: &[(&[u8], &str)],
) -> Result<Option<usize>, AllocError> {
    for (place, (source, told)) in cases.iter().enumerate() {
        let left = ran(alloc, &["ast", "s.f90"], "s.f90", source)?;
        if !left.is(1, b"", told.as_bytes()) {
            return Ok(Some(place));
        }
    }
    Ok(None)
}

/// The place of the first source that `ast s.f90` does not show as its text alone, if there is one.
pub(crate) fn first_not_shown(
    alloc: Global,
    cases: &[(&[u8], &str)],
) -> Result<Option<usize>, AllocError> {
    for (place, (source, tree)) in cases.iter().enumerate() {
        let left = ran(alloc, &["ast", "s.f90"], "s.f90", source)?;
        if !left.is(0, tree.as_bytes(), b"") {
            return Ok(Some(place));
        }
    }
    Ok(None)
}

/// A program with these lines from line 2 on.
fn with_lines(alloc: Global, lines: &str) -> Result<String, AllocError> {
    format!(in alloc; "program p\n{lines}\nend\n")
}

/// What stands around the statements, or the declarations, of a program in its text.
pub(crate) type Around = (&'static str, &'static str);

pub(crate) const STATEMENTS: Around = ("(Program 1 p [] [", "] [])\n");

pub(crate) const DECLARATIONS: Around = ("(Program 1 p [", "] [] [])\n");

/// The same for programs with these lines from line 2 on, which are shown with this text between what stands around it.
pub(crate) fn first_lines_not_shown(
    alloc: Global,
    around: Around,
    cases: &[(&str, &str)],
) -> Result<Option<usize>, AllocError> {
    let (front, behind) = around;
    for (place, (lines, text)) in cases.iter().enumerate() {
        let source = with_lines(alloc, lines)?;
        let tree = format!(in alloc; "{front}{text}{behind}")?;
        let left = ran(alloc, &["ast", "s.f90"], "s.f90", source.as_bytes())?;
        if !left.is(0, tree.as_bytes(), b"") {
            return Ok(Some(place));
        }
    }
    Ok(None)
}

/// The same for programs with these lines from line 2 on, which are refused so.
pub(crate) fn first_lines_not_refused(
    alloc: Global,
    cases: &[(&str, &str)],
) -> Result<Option<usize>, AllocError> {
    for (place, (lines, told)) in cases.iter().enumerate() {
        let source = with_lines(alloc, lines)?;
        let told = format!(in alloc; "s.f90:{told}\n")?;
        let left = ran(alloc, &["ast", "s.f90"], "s.f90", source.as_bytes())?;
        if !left.is(1, b"", told.as_bytes()) {
            return Ok(Some(place));
        }
    }
    Ok(None)
}
