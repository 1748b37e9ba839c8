//! A chain of `else if` in C, which is a tree as deep as the chain is long.

use crate::run::failed;
use c_nodes::{CExpr, CFile, CItem, CResult, CStmt, print_c};
use lf_base::{Name, SureSink};
use sqlite_items::Items;
use std::alloc::{AllocError, Global};
use std::test::Fail;

const ARMS: usize = 10_000;

/// One more arm in front of a chain.
fn with_arm(alloc: Global, chain: Items<CStmt>) -> Result<Items<CStmt>, AllocError> {
    let mut arms = Items::new(alloc);
    arms.push(CStmt::IfElse {
        test: CExpr::Constant { value: 1 },
        then_body: Items::new(alloc),
        else_body: chain,
    })?;
    Ok(arms)
}

/// A function whose body is a chain of so many arms.
fn chained(alloc: Global, arms: usize) -> Result<CFile, AllocError> {
    let mut body = Items::new(alloc);
    for _ in 0..arms {
        body = with_arm(alloc, body)?;
    }
    let mut items = Items::new(alloc);
    items.push(CItem::Function {
        is_static: false,
        result: CResult::Void,
        name: Name::new(alloc, b"f").map_err(failed)?,
        parameters: Items::new(alloc),
        body,
    })?;
    Ok(CFile { items })
}

/// A text that stands so often, behind another one.
fn repeated(mut front: Vec<u8>, text: &[u8], times: usize) -> Result<Vec<u8>, AllocError> {
    for _ in 0..times {
        front.extend_from_slice(text)?;
    }
    Ok(front)
}

#[test]
fn a_long_chain_is_printed_and_dropped(rt: HostRuntime) -> Result<(), Fail> {
    let alloc = rt.alloc();
    let file = chained(alloc, ARMS)?;
    let mut sink = SureSink::new(alloc).map_err(failed)?;
    assert!(rt; print_c(&file, &mut sink).is_ok());
    let headers = b"#include <stdint.h>\n#include <stdio.h>\n#include <stdlib.h>\nvoid f(void) {\n";
    let front = Vec::from_slice(alloc, headers)?;
    let opened = repeated(front, b"if (1) {\n} else {\n", ARMS)?;
    let closed = repeated(opened, b"}\n", ARMS + 1)?;
    assert!(rt; sink.bytes() == closed.as_slice());
    Ok(())
}
