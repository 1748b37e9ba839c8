use crate::there::there;
use lf_base::{Name, SymId, TableId};
use std::alloc::Global;
use std::test::Fail;
use symtab_arena::{Arena, ArenaFault};

const ROOT: TableId = TableId(0);

const PROGRAM: TableId = TableId(1);

const INNER: TableId = TableId(2);

type Declared = Result<SymId, ArenaFault>;

type Owner = Result<(SymId, TableId), ArenaFault>;

fn declare(
    alloc: Global,
    arena: &mut Arena<u32>,
    table: TableId,
    text: &[u8],
    what: u32,
) -> Result<Declared, Fail> {
    there(arena.has_table(table))?;
    let name = Name::new(alloc, text)?;
    Ok(arena.declare(table, &name, what))
}

fn declare_owner(
    alloc: Global,
    arena: &mut Arena<u32>,
    table: TableId,
    text: &[u8],
    what: u32,
) -> Result<Owner, Fail> {
    there(arena.has_table(table))?;
    let name = Name::new(alloc, text)?;
    Ok(arena.declare_owner(table, &name, what))
}

/// Declares the program `p` with the variables `x` and `y` and the procedure `s`, which has an `x` of its own. Tells whether
/// they have their numbers.
fn has_sample(alloc: Global, arena: &mut Arena<u32>) -> Result<bool, Fail> {
    let p = declare_owner(alloc, arena, ROOT, b"p", 10)?;
    let x = declare(alloc, arena, PROGRAM, b"x", 11)?;
    let s = declare_owner(alloc, arena, PROGRAM, b"s", 12)?;
    let own = declare(alloc, arena, INNER, b"x", 13)?;
    let y = declare(alloc, arena, PROGRAM, b"y", 14)?;
    Ok(
        p == Ok((SymId(0), PROGRAM))
            && x == Ok(SymId(1))
            && s == Ok((SymId(2), INNER))
            && own == Ok(SymId(3))
            && y == Ok(SymId(4)),
    )
}

/// Declares `a`, `b` and `c` in the root.
fn declare_three(alloc: Global, arena: &mut Arena<u32>) -> Result<(), Fail> {
    for text in [b"a", b"b", b"c"] {
        let _ = declare(alloc, arena, ROOT, text, 9)?;
    }
    Ok(())
}

/// Tables and names with the symbols that are found there, and along the parents.
const LOOKUPS: [(TableId, &[u8], Option<SymId>, Option<SymId>); 9] = [
    (ROOT, b"p", Some(SymId(0)), Some(SymId(0))),
    (ROOT, b"x", None, None),
    (PROGRAM, b"p", None, Some(SymId(0))),
    (PROGRAM, b"x", Some(SymId(1)), Some(SymId(1))),
    (PROGRAM, b"s", Some(SymId(2)), Some(SymId(2))),
    (INNER, b"x", Some(SymId(3)), Some(SymId(3))),
    (INNER, b"y", None, Some(SymId(4))),
    (INNER, b"p", None, Some(SymId(0))),
    (INNER, b"z", None, None),
];

/// The place of the first name that is not found so, if there is one.
fn first_not_found(alloc: Global, arena: &Arena<u32>) -> Result<Option<usize>, Fail> {
    for (place, (table, text, here, up)) in LOOKUPS.iter().enumerate() {
        let name = Name::new(alloc, text)?;
        if arena.lookup_here(*table, &name) != *here || arena.lookup_up(*table, &name) != *up {
            return Ok(Some(place));
        }
    }
    Ok(None)
}

/// Whether these are a table's parent and owner, and its first, third and fourth symbol.
fn table_is(
    arena: &Arena<u32>,
    table: TableId,
    links: (Option<TableId>, Option<SymId>),
    symbols: (Option<SymId>, Option<SymId>, Option<SymId>),
) -> bool {
    (arena.parent(table), arena.owner(table)) == links
        && (arena.at(table, 0), arena.at(table, 2), arena.at(table, 3)) == symbols
}

/// Whether a symbol is live in its table, with the table that it owns, its name and what it stands for.
fn symbol_is(
    arena: &Arena<u32>,
    symbol: SymId,
    links: (TableId, Option<TableId>),
    text: &[u8],
    what: u32,
) -> bool {
    arena.live(symbol)
        && (arena.table_of(symbol), arena.owned(symbol)) == links
        && arena.name_of(symbol).bytes() == text
        && *arena.what(symbol) == what
}

/// Whether so many symbols are live, and these numbers come next.
fn counts_are(arena: &Arena<u32>, live: usize, given: usize, tables: u32) -> bool {
    arena.len() == live && arena.given() == given && arena.next_table() == TableId(tables)
}

fn tables_are_linked(arena: &Arena<u32>) -> bool {
    let p = Some(SymId(0));
    let x = Some(SymId(1));
    table_is(arena, ROOT, (None, None), (p, None, None))
        && table_is(arena, PROGRAM, (Some(ROOT), p), (x, Some(SymId(4)), None))
        && table_is(
            arena,
            INNER,
            (Some(PROGRAM), Some(SymId(2))),
            (Some(SymId(3)), None, None),
        )
        && !arena.has_table(TableId(3))
}

fn symbols_are_linked(arena: &Arena<u32>) -> bool {
    symbol_is(arena, SymId(0), (ROOT, Some(PROGRAM)), b"p", 10)
        && symbol_is(arena, SymId(1), (PROGRAM, None), b"x", 11)
        && symbol_is(arena, SymId(2), (PROGRAM, Some(INNER)), b"s", 12)
        && symbol_is(arena, SymId(3), (INNER, None), b"x", 13)
        && symbol_is(arena, SymId(4), (PROGRAM, None), b"y", 14)
        && !arena.live(SymId(5))
}

/// Whether a second declaration is refused and changes nothing.
fn refuses_a_second(alloc: Global, arena: &mut Arena<u32>) -> Result<bool, Fail> {
    let symbol = declare(alloc, arena, PROGRAM, b"x", 99)?;
    let owner = declare_owner(alloc, arena, INNER, b"x", 99)?;
    let same = counts_are(arena, 5, 5, 3);
    let other = declare(alloc, arena, ROOT, b"x", 15)?;
    Ok(
        symbol == Err(ArenaFault::Twice(SymId(1)))
            && owner == Err(ArenaFault::Twice(SymId(3)))
            && same
            && other == Ok(SymId(5)),
    )
}

#[test]
fn tables_and_symbols_name_one_another(rt: HostRuntime) -> Result<(), Fail> {
    let mut arena = Arena::new(rt.alloc())?;
    assert!(rt; has_sample(rt.alloc(), &mut arena)?);
    assert_eq!(rt; first_not_found(rt.alloc(), &arena)?, None);
    assert!(rt; tables_are_linked(&arena) && symbols_are_linked(&arena));
    assert!(rt; counts_are(&arena, 5, 5, 3));
    assert!(rt; refuses_a_second(rt.alloc(), &mut arena)?);
    Ok(())
}

/// Declares a name before the symbol at a place of the root.
fn declare_before(
    arena: &mut Arena<u32>,
    place: usize,
    name: &Name,
    what: u32,
) -> Result<Declared, Fail> {
    there(arena.has_table(ROOT))?;
    there(arena.at(ROOT, place).is_some())?;
    Ok(arena.declare_at(ROOT, place, name, what))
}

/// Declares an owner before the symbol at a place of the root.
fn declare_owner_before(
    arena: &mut Arena<u32>,
    place: usize,
    name: &Name,
    what: u32,
) -> Result<Owner, Fail> {
    there(arena.has_table(ROOT))?;
    there(arena.at(ROOT, place).is_some())?;
    Ok(arena.declare_owner_at(ROOT, place, name, what))
}

/// Whether these are the symbols of the root in their order.
fn order_is(arena: &Arena<u32>, numbers: &[u32]) -> bool {
    for (place, number) in numbers.iter().enumerate() {
        if arena.at(ROOT, place) != Some(SymId(*number)) {
            return false;
        }
    }
    arena.at(ROOT, numbers.len()).is_none()
}

fn places_move_up(alloc: Global, arena: &mut Arena<u32>) -> Result<bool, Fail> {
    declare_three(alloc, arena)?;
    let first = Name::new(alloc, b"first")?;
    let before = declare_before(arena, 0, &first, 1)?;
    let middle = Name::new(alloc, b"middle")?;
    let between = declare_owner_before(arena, 2, &middle, 2)?;
    Ok(
        before == Ok(SymId(3))
            && between == Ok((SymId(4), PROGRAM))
            && order_is(arena, &[3, 0, 4, 1, 2])
            && arena.parent(PROGRAM) == Some(ROOT),
    )
}

/// Names with what they stand for.
fn listed(alloc: Global, texts: &[&[u8]]) -> Result<Vec<(Name, u32)>, Fail> {
    let mut names = Vec::new(alloc);
    for text in texts {
        let name = Name::new(alloc, text)?;
        names.push((name, 7))?;
    }
    Ok(names)
}

/// Declares names from the place of a symbol of the root on.
fn declare_all_before(
    arena: &mut Arena<u32>,
    place: usize,
    names: Vec<(Name, u32)>,
) -> Result<Result<(), ArenaFault>, Fail> {
    there(arena.has_table(ROOT))?;
    there(arena.at(ROOT, place).is_some())?;
    Ok(arena.declare_all_at(ROOT, place, names))
}

fn names_go_in_at_once(alloc: Global, arena: &mut Arena<u32>) -> Result<bool, Fail> {
    declare_three(alloc, arena)?;
    let names = listed(alloc, &[b"x", b"y", b"z"])?;
    let done = declare_all_before(arena, 1, names)?;
    let is_ordered = order_is(arena, &[0, 3, 4, 5, 1, 2]);
    let names = listed(alloc, &[b"u", b"b", b"v"])?;
    let refused = declare_all_before(arena, 0, names)?;
    Ok(
        done == Ok(())
            && is_ordered
            && refused == Err(ArenaFault::Twice(SymId(1)))
            && order_is(arena, &[6, 0, 3, 4, 5, 1, 2]),
    )
}

#[test]
fn names_are_declared_at_places(rt: HostRuntime) -> Result<(), Fail> {
    let mut arena = Arena::new(rt.alloc())?;
    assert!(rt; places_move_up(rt.alloc(), &mut arena)?);
    let mut arena = Arena::new(rt.alloc())?;
    assert!(rt; names_go_in_at_once(rt.alloc(), &mut arena)?);
    Ok(())
}

/// Declares a scope with one symbol in it, and takes it out again.
fn declare_and_remove(
    arena: &mut Arena<u32>,
    scope: &Name,
    inner: &Name,
) -> Result<u32, ArenaFault> {
    arena.linked();
    let (owner, table) = arena.declare_owner(ROOT, scope, 7)?;
    arena.linked();
    let _ = arena.declare(table, inner, 8)?;
    Ok(arena.remove_owned(owner))
}

fn numbers_are_not_given_again(alloc: Global, arena: &mut Arena<u32>) -> Result<bool, Fail> {
    let scope = Name::new(alloc, b"s")?;
    let inner = Name::new(alloc, b"x")?;
    let removed = declare_and_remove(arena, &scope, &inner);
    let is_empty = counts_are(arena, 0, 2, 2) && order_is(arena, &[]);
    let is_gone = !arena.live(SymId(0)) && !arena.live(SymId(1)) && !arena.has_table(PROGRAM);
    let next = declare(alloc, arena, ROOT, b"s", 9)?;
    Ok(removed == Ok(7) && is_empty && is_gone && next == Ok(SymId(2)))
}

/// Takes out a live symbol that owns no table, once it stands for something else.
fn replace_and_remove(
    arena: &mut Arena<u32>,
    symbol: SymId,
    with: u32,
) -> Result<(u32, u32), Fail> {
    there(arena.live(symbol))?;
    let old = arena.replace_what(symbol, with);
    there(arena.live(symbol))?;
    there(arena.owned(symbol).is_none())?;
    Ok((old, arena.remove(symbol)))
}

fn removal_closes_the_order(alloc: Global, arena: &mut Arena<u32>) -> Result<bool, Fail> {
    declare_three(alloc, arena)?;
    let taken = replace_and_remove(arena, SymId(1), 20)?;
    Ok(taken == (9, 20) && order_is(arena, &[0, 2]) && counts_are(arena, 2, 3, 1))
}

/// Takes out two symbols of the root at once, each with the table that it owns.
fn remove_both(arena: &mut Arena<u32>, first: SymId, second: SymId) -> Result<(), Fail> {
    there(arena.has_table(ROOT))?;
    there(arena.live(first) && arena.live(second))?;
    there(arena.table_of(first) == ROOT && arena.table_of(second) == ROOT)?;
    there(arena.owns_no_owner(first) && arena.owns_no_owner(second))?;
    arena.remove_all_owned(ROOT, &[first, second]);
    Ok(())
}

fn owns_no_owner(arena: &Arena<u32>, symbol: SymId) -> bool {
    arena.live(symbol) && arena.owns_no_owner(symbol)
}

fn owners_go_at_once(alloc: Global, arena: &mut Arena<u32>) -> Result<bool, Fail> {
    let is_sample = has_sample(alloc, arena)?;
    let owners = !owns_no_owner(arena, SymId(0)) && owns_no_owner(arena, SymId(2));
    let _ = declare_owner(alloc, arena, ROOT, b"q", 0)?;
    let _ = declare_owner(alloc, arena, ROOT, b"r", 0)?;
    let _ = declare(alloc, arena, TableId(3), b"x", 0)?;
    remove_both(arena, SymId(5), SymId(6))?;
    let is_left = order_is(arena, &[0]) && counts_are(arena, 5, 8, 5);
    let is_gone = !arena.live(SymId(7))
        && !arena.has_table(TableId(3))
        && !arena.has_table(TableId(4));
    Ok(is_sample && owners && is_left && is_gone)
}

#[test]
fn symbols_are_taken_out(rt: HostRuntime) -> Result<(), Fail> {
    let mut arena = Arena::new(rt.alloc())?;
    assert!(rt; numbers_are_not_given_again(rt.alloc(), &mut arena)?);
    let mut arena = Arena::new(rt.alloc())?;
    assert!(rt; removal_closes_the_order(rt.alloc(), &mut arena)?);
    let mut arena = Arena::new(rt.alloc())?;
    assert!(rt; owners_go_at_once(rt.alloc(), &mut arena)?);
    Ok(())
}

/// Declares so many names in the root.
fn declare_many(alloc: Global, arena: &mut Arena<u32>, count: u32) -> Result<(), Fail> {
    for number in 0..count {
        let name = Name::new(alloc, &number.to_le_bytes())?;
        arena.linked();
        let _ = arena.declare(ROOT, &name, number)?;
    }
    Ok(())
}

/// Places of the root with the symbols that stand there, once one was declared in front of the places 101 and 70,000.
const FAR: [(usize, u32); 5] = [
    (100, 100),
    (101, 70_001),
    (102, 101),
    (70_000, 70_002),
    (70_001, 69_999),
];

fn places_are_far(alloc: Global, arena: &mut Arena<u32>) -> Result<bool, Fail> {
    declare_many(alloc, arena, 70_001)?;
    let near = Name::new(alloc, b"near")?;
    let first = declare_before(arena, 101, &near, 1)?;
    let far = Name::new(alloc, b"far")?;
    let second = declare_before(arena, 70_000, &far, 2)?;
    Ok(first == Ok(SymId(70_001)) && second == Ok(SymId(70_002)) && stand_far(arena))
}

fn stand_far(arena: &Arena<u32>) -> bool {
    for (place, number) in FAR {
        if arena.at(ROOT, place) != Some(SymId(number)) {
            return false;
        }
    }
    true
}

fn numbers_end(alloc: Global, arena: &mut Arena<u32>) -> Result<bool, Fail> {
    declare_many(alloc, arena, 1_048_576)?;
    let is_full = counts_are(arena, 1_048_576, 1_048_576, 1);
    let symbol = declare(alloc, arena, ROOT, b"new", 0)?;
    let owner = declare_owner(alloc, arena, ROOT, b"new", 0)?;
    let again = declare(alloc, arena, ROOT, &[77, 0, 0, 0], 0)?;
    Ok(
        is_full
            && symbol == Err(ArenaFault::Full)
            && owner == Err(ArenaFault::Full)
            && again == Err(ArenaFault::Twice(SymId(77))),
    )
}

#[test]
fn tables_are_long(rt: HostRuntime) -> Result<(), Fail> {
    let mut arena = Arena::new(rt.alloc())?;
    assert!(rt; places_are_far(rt.alloc(), &mut arena)?);
    let mut arena = Arena::new(rt.alloc())?;
    assert!(rt; numbers_end(rt.alloc(), &mut arena)?);
    Ok(())
}
