ghost use Rattle.std.specs.Prelude.{◌≡◌, ◌++◌, [], codes, map, string_bytes, OnOk, IfOk};
ghost use Rattle.std.specs.List.{slice_index_or};
ghost use Rattle.lf_driver.specs.Ends.{Counts};
ghost use Rattle.lf_driver.specs.Order.{names_at, order_text};
ghost use Rattle.lf_driver.specs.Refusal.{Circular, listed, refusal_text};
ghost use Rattle.lf_driver.specs.Sort.{GivesTreeOf, GivesTrees, ReadCounts, GainsText, TreesSortTo, FilesSortTo};
ghost use Rattle.lf_driver.specs.Verdict.{tree_of};

use crate::front::read_tree;
use crate::outcome::Answer;
use ast_nodes::File;
use file_order::{OrderFault, order};
use lf_base::{GetFault, Memory, PutFault, Rule, Sink, Store, SyntaxFault};
use std::alloc::Global;

// The tree of the file of a name, or what comes instead.
#[tactic(auto, using(crate::proofs::Sorting::tree_there, crate::proofs::Sorting::tree_refused, crate::proofs::Sorting::tree_too_long, crate::proofs::Sorting::tree_absent))]
fn read_file<'a, S: Store>(alloc: Global, name: &'a str, store: &mut S) -> Result<File, Answer<'a>>
    ensures gives { GivesTreeOf result name.now (S.files store.old) }
    ensures files { S.files store.new ≡ S.files store.old }
    ensures pending { S.pending store.new ≡ S.pending store.old }
    ensures bytes { S.contents store.new ≡ S.contents store.old }
    ensures writes { S.Sink.faults store.new ≡ S.Sink.faults store.old }
    ensures reads { ReadCounts result (S.read_faults store.old) (S.read_faults store.new) }
{
    match store.read(alloc, name) {
        Ok(bytes) => match read_tree(alloc, bytes.as_slice()) {
            Ok(tree) => Ok(tree),
            Err(SyntaxFault::At { line, rule }) => Err(Answer::Refused { name, line, rule }),
            Err(SyntaxFault::Memory) => Err(Answer::Memory),
        },
        Err(GetFault::Absent) => Err(Answer::Absent { name }),
        Err(GetFault::TooLong) => Err(Answer::Refused {
            name,
            line: 1,
            rule: Rule::E108,
        }),
        Err(GetFault::Failed) => Err(Answer::ReadFault),
        Err(GetFault::Memory) => Err(Answer::Memory),
    }
}

// The trees of the files, or what comes at the first that has none.
fn read_files<'a, S: Store>(
    alloc: Global,
    names: &'a [String],
    store: &mut S,
) -> Result<Vec<File>, Answer<'a>>
    ensures gives { GivesTrees result (map string_bytes names.now) (S.files store.old) }
    ensures files { S.files store.new ≡ S.files store.old }
    ensures pending { S.pending store.new ≡ S.pending store.old }
    ensures bytes { S.contents store.new ≡ S.contents store.old }
    ensures writes { S.Sink.faults store.new ≡ S.Sink.faults store.old }
    ensures reads { ReadCounts result (S.read_faults store.old) (S.read_faults store.new) }
{
    let mut trees = Vec::new(alloc);
    for name in names {
        let tree = match read_file(alloc, name.as_str(), store) {
            Ok(tree) => tree,
            Err(came) => return Err(came),
        };
        let Ok(()) = trees.push(tree) else {
            return Err(Answer::Memory);
        };
    }
    Ok(trees)
}

// A text behind another.
fn append(text: &mut Vec<u8>, more: &[u8]) -> Result<(), Memory>
    ensures { OnOk result (text.new.items ≡ text.old.items ++ more.now) }
{
    text.extend_from_slice(more)?;
    Ok(())
}

fn name_at(names: &[String], place: usize) -> &[u8]
    ensures { result.now ≡ slice_index_or (map string_bytes names.now) place [] }
{
    match names.get(place) {
        Some(name) => name.as_bytes(),
        None => b"",
    }
}

// A name with a text before it and one behind it.
fn add_name(text: &mut Vec<u8>, name: &[u8], before: &[u8], behind: &[u8]) -> Result<(), Memory>
    ensures { OnOk result (text.new.items ≡ text.old.items ++ (before.now ++ (name.now ++ behind.now))) }
{
    append(text, before)?;
    append(text, name)?;
    append(text, behind)
}

// The names in these places, each with a text before it and one behind it.
fn add_names(
    text: &mut Vec<u8>,
    names: &[String],
    places: &[usize],
    before: &[u8],
    behind: &[u8],
) -> Result<(), Memory>
    ensures { OnOk result (text.new.items ≡ text.old.items ++ listed before.now behind.now (names_at (map string_bytes names.now) places.now)) }
{
    for place in places {
        add_name(text, name_at(names, *place), before, behind)?;
    }
    Ok(())
}

fn order_text(alloc: Global, names: &[String], order: &[usize]) -> Result<Vec<u8>, Memory>
    ensures { IfOk result (λ text. text.items ≡ order_text (map string_bytes names.now) order.now) }
{
    let mut text = Vec::new(alloc);
    add_names(&mut text, names, order, b"", b"\n")?;
    Ok(text)
}

fn cycle_text(alloc: Global, names: &[String], places: &[usize]) -> Result<Vec<u8>, Memory>
    ensures { IfOk result (λ text. text.items ≡ refusal_text (Circular (names_at (map string_bytes names.now) places.now))) }
{
    let mut text = Vec::new(alloc);
    append(&mut text, b"lf: cycle")?;
    add_names(&mut text, names, places, b" ", b"")?;
    append(&mut text, b"\n")?;
    Ok(text)
}

// The whole text is put at once, and only where it could be made.
fn show_order<'a, O: Sink>(
    alloc: Global,
    names: &[String],
    order: &[usize],
    out: &mut O,
) -> Answer<'a>
    ensures gains { GainsText O.may_fail O.takes_memory result (order_text (map string_bytes names.now) order.now) (O.contents out.old) (O.contents out.new) }
    ensures keeps { O.keeps out.old out.new }
    ensures counts { Counts result 0 0 (O.faults out.old) (O.faults out.new) }
{
    match order_text(alloc, names, order) {
        Ok(text) => match out.put(text.as_slice()) {
            Ok(()) => Answer::Done,
            Err(PutFault::Failed) => Answer::WriteFault,
            Err(PutFault::Memory) => Answer::Memory,
        },
        Err(Memory) => Answer::Memory,
    }
}

// What comes of the trees of the files of these names.
#[tactic(auto, using(crate::proofs::Sorting::shown_order))]
fn sort_trees<'a, O: Sink>(
    alloc: Global,
    names: &[String],
    trees: &[File],
    out: &mut O,
) -> Answer<'a>
    ensures sorts { TreesSortTo O.may_fail O.takes_memory result (map string_bytes names.now) trees.now (O.contents out.old) (O.contents out.new) }
    ensures keeps { O.keeps out.old out.new }
    ensures counts { Counts result 0 0 (O.faults out.old) (O.faults out.new) }
{
    match order(alloc, trees) {
        Ok(order) => show_order(alloc, names, order.as_slice(), out),
        Err(OrderFault::Cycle(places)) => match cycle_text(alloc, names, places.as_slice()) {
            Ok(text) => Answer::Circular { text },
            Err(Memory) => Answer::Memory,
        },
        Err(OrderFault::Memory) => Answer::Memory,
    }
}

/// What comes of the files of these names, whose order is wanted. The store is read and not changed. A fault of
/// any file comes before a cycle.
#[tactic(auto, using(crate::proofs::Sorting::sorted, crate::proofs::Sorting::not_read, crate::proofs::Sorting::counted, crate::proofs::Sorting::counted_reads))]
pub(crate) fn sort_files<'a, S: Store, O: Sink>(
    alloc: Global,
    names: &'a [String],
    store: &mut S,
    out: &mut O,
) -> Answer<'a>
    ensures sorts { FilesSortTo O.may_fail O.takes_memory result (map string_bytes names.now) (S.files store.old) (O.contents out.old) (O.contents out.new) }
    ensures keeps { O.keeps out.old out.new }
    ensures files { S.files store.new ≡ S.files store.old }
    ensures pending { S.pending store.new ≡ S.pending store.old }
    ensures bytes { S.contents store.new ≡ S.contents store.old }
    ensures writes { S.Sink.faults store.new ≡ S.Sink.faults store.old }
    ensures counts { Counts result (S.read_faults store.old) (S.read_faults store.new) (O.faults out.old) (O.faults out.new) }
{
    match read_files(alloc, names, store) {
        Ok(trees) => sort_trees(alloc, names, trees.as_slice(), out),
        Err(came) => came,
    }
}
