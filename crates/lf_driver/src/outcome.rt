ghost use Rattle.std.specs.Prelude.{◌≡◌, Ok, OnOk, OnErr, [], ◌∷◌, codes};
ghost use Rattle.std.specs.Fmt.{decimal};
ghost use Rattle.lf_base.specs.Contents.{joined};
ghost use Rattle.lf_base.specs.Puts.{Puts, Causes};
ghost use Rattle.lf_base.specs.Rules.{number_of};
ghost use Rattle.lf_driver.specs.Call.{held};
ghost use Rattle.lf_driver.specs.Ends.{status_of, text_of, TellsOr, Reports};

use itoa::Buffer;
use lf_base::{PutFault, Rule, Sink};

/// What a call has come to.
#[derive(Drop)]
pub(crate) enum Answer<'a> {
    Done,
    Usage,
    /// The store has no file of the name.
    Absent {
        name: &'a str,
    },
    /// A file breaks a rule, first at the line.
    Refused {
        name: &'a str,
        line: u32,
        rule: Rule,
    },
    /// Files wait for one another, which the text tells.
    Circular {
        text: Vec<u8>,
    },
    ReadFault,
    WriteFault,
    Memory,
}

// How the puts so far ended. After a failure nothing more is put.
type Ended = Result<(), PutFault>;

fn put<O: Sink>(before: Ended, out: &mut O, piece: &[u8]) -> Ended
    ensures text { Puts before result (O.contents out.old) (O.contents out.new) piece.now }
    ensures cause { Causes O.may_fail O.takes_memory before result (O.faults out.old) (O.faults out.new) }
    ensures keeps { O.keeps out.old out.new }
{
    match before {
        Ok(()) => out.put(piece),
        Err(fault) => Err(fault),
    }
}

fn put_number<O: Sink>(before: Ended, out: &mut O, number: u32) -> Ended
    ensures text { Puts before result (O.contents out.old) (O.contents out.new) (decimal number) }
    ensures cause { Causes O.may_fail O.takes_memory before result (O.faults out.old) (O.faults out.new) }
    ensures keeps { O.keeps out.old out.new }
{
    let mut buffer = Buffer::new();
    put(before, out, buffer.format(number).as_bytes())
}

#[tactic(auto, using(lf_base::proofs::Chains::chains))]
fn put_absent<O: Sink>(before: Ended, out: &mut O, name: &[u8]) -> Ended
    ensures text { Puts before result (O.contents out.old) (O.contents out.new) (joined (codes "lf: no such file: " ∷ name.now ∷ codes "\n" ∷ [])) }
    ensures cause { Causes O.may_fail O.takes_memory before result (O.faults out.old) (O.faults out.new) }
    ensures keeps { O.keeps out.old out.new }
{
    let ended = put(before, out, b"lf: no such file: ");
    let ended = put(ended, out, name);
    put(ended, out, b"\n")
}

#[tactic(auto, using(lf_base::proofs::Chains::chains))]
fn put_rule<O: Sink>(before: Ended, out: &mut O, rule: Rule) -> Ended
    ensures text { Puts before result (O.contents out.old) (O.contents out.new) (joined (decimal (number_of rule) ∷ codes "\n" ∷ [])) }
    ensures cause { Causes O.may_fail O.takes_memory before result (O.faults out.old) (O.faults out.new) }
    ensures keeps { O.keeps out.old out.new }
{
    let ended = put_number(before, out, u32::from(rule.number()));
    put(ended, out, b"\n")
}

#[tactic(auto, using(lf_base::proofs::Chains::chains))]
fn put_refused<O: Sink>(before: Ended, out: &mut O, name: &[u8], line: u32, rule: Rule) -> Ended
    ensures text { Puts before result (O.contents out.old) (O.contents out.new) (joined (name.now ∷ codes ":" ∷ decimal line ∷ codes ": E" ∷ joined (decimal (number_of rule) ∷ codes "\n" ∷ []) ∷ [])) }
    ensures cause { Causes O.may_fail O.takes_memory before result (O.faults out.old) (O.faults out.new) }
    ensures keeps { O.keeps out.old out.new }
{
    let ended = put(before, out, name);
    let ended = put(ended, out, b":");
    let ended = put_number(ended, out, line);
    let ended = put(ended, out, b": E");
    put_rule(ended, out, rule)
}

#[tactic(auto, using(lf_base::proofs::Chains::chains, lf_base::proofs::Chains::causes_none))]
fn put_nothing<O: Sink>(before: Ended, out: &mut O) -> Ended
    ensures text { Puts before result (O.contents out.old) (O.contents out.new) (joined []) }
    ensures cause { Causes O.may_fail O.takes_memory before result (O.faults out.old) (O.faults out.new) }
    ensures keeps { O.keeps out.old out.new }
{
    before
}

fn put_text<O: Sink>(before: Ended, out: &mut O, outcome: &Answer) -> Ended
    ensures text { Puts before result (O.contents out.old) (O.contents out.new) (text_of outcome.now) }
    ensures cause { Causes O.may_fail O.takes_memory before result (O.faults out.old) (O.faults out.new) }
    ensures keeps { O.keeps out.old out.new }
{
    match outcome {
        Answer::Done => put_nothing(before, out),
        Answer::Usage => put(before, out, b"lf: usage: COMMAND [--turns=N] FILE ...\n"),
        Answer::Absent { name } => put_absent(before, out, name.as_bytes()),
        Answer::Refused { name, line, rule } => put_refused(
            before,
            out,
            name.as_bytes(),
            *line,
            *rule,
        ),
        Answer::Circular { text } => put(before, out, text.as_slice()),
        Answer::ReadFault => put(before, out, b"lf: read fault\n"),
        Answer::WriteFault => put(before, out, b"lf: write fault\n"),
        Answer::Memory => put(before, out, b"lf: out of memory\n"),
    }
}

// Tells what came. Where that can't be written, the fault that this is is told in its place.
#[tactic(auto, using(crate::proofs::Tellings::tellings))]
fn tell<E: Sink>(err: &mut E, outcome: &Answer) -> Result<(), PutFault>
    ensures tells { TellsOr outcome.now result (held E.may_fail E.takes_memory (E.contents err.old) (E.faults err.old)) (held E.may_fail E.takes_memory (E.contents err.new) (E.faults err.new)) }
    ensures keeps { E.keeps err.old err.new }
{
    match put_text(Ok(()), err, outcome) {
        Ok(()) => Ok(()),
        Err(PutFault::Failed) => {
            let _ = put_text(Ok(()), err, &Answer::WriteFault);
            Err(PutFault::Failed)
        }
        Err(PutFault::Memory) => {
            let _ = put_text(Ok(()), err, &Answer::Memory);
            Err(PutFault::Memory)
        }
    }
}

/// Tells on the sink what a call has come to, and answers what it comes to by that. The text of a fault is
/// tried once.
#[tactic(auto, using(crate::proofs::Tellings::tellings))]
pub(crate) fn report<'a, E: Sink>(err: &mut E, outcome: Answer<'a>) -> Answer<'a>
    ensures reports { Reports outcome.entry result (held E.may_fail E.takes_memory (E.contents err.old) (E.faults err.old)) (held E.may_fail E.takes_memory (E.contents err.new) (E.faults err.new)) }
    ensures keeps { E.keeps err.old err.new }
{
    match outcome {
        Answer::Done => Answer::Done,
        Answer::Usage => match tell(err, &Answer::Usage) {
            Ok(()) => Answer::Usage,
            Err(PutFault::Failed) => Answer::WriteFault,
            Err(PutFault::Memory) => Answer::Memory,
        },
        Answer::Absent { name } => match tell(err, &Answer::Absent { name }) {
            Ok(()) => Answer::Absent { name },
            Err(PutFault::Failed) => Answer::WriteFault,
            Err(PutFault::Memory) => Answer::Memory,
        },
        Answer::Refused { name, line, rule } => match tell(
            err,
            &Answer::Refused { name, line, rule },
        ) {
            Ok(()) => Answer::Refused { name, line, rule },
            Err(PutFault::Failed) => Answer::WriteFault,
            Err(PutFault::Memory) => Answer::Memory,
        },
        Answer::Circular { text } => {
            let circular = Answer::Circular { text };
            match tell(err, &circular) {
                Ok(()) => circular,
                Err(PutFault::Failed) => Answer::WriteFault,
                Err(PutFault::Memory) => Answer::Memory,
            }
        }
        Answer::ReadFault => {
            let _ = put_text(Ok(()), err, &Answer::ReadFault);
            Answer::ReadFault
        }
        Answer::WriteFault => {
            let _ = put_text(Ok(()), err, &Answer::WriteFault);
            Answer::WriteFault
        }
        Answer::Memory => {
            let _ = put_text(Ok(()), err, &Answer::Memory);
            Answer::Memory
        }
    }
}

impl Answer<'_> {
    /// The status of the program.
    pub(crate) fn status(&self) -> u8
        ensures { result ≡ status_of self.now }
    {
        match self {
            Answer::Done => 0,
            Answer::Refused { .. } => 1,
            Answer::Usage | Answer::Absent { .. } => 2,
            Answer::ReadFault => 3,
            Answer::WriteFault => 4,
            Answer::Memory => 5,
            Answer::Circular { .. } => 8,
        }
    }
}
