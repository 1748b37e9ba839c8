ghost use Rattle.lf_driver.specs.Front.{GivesFile};
ghost use Rattle.lf_driver.specs.Front.{front_of};

use ast_nodes::File;
use ff_lexer::statements;
use ff_parser::parse;
use lf_base::{LexFault, SyntaxFault};
use std::alloc::Global;

/// The tree of a text, or the first rule that it breaks: first those of its lexical form, then those of its
/// statements.
pub(crate) fn read_tree(alloc: Global, source: &[u8]) -> Result<File, SyntaxFault>
    ensures { GivesFile result (front_of source.now) }
{
    match statements(alloc, source) {
        Ok(stmts) => parse(alloc, stmts.as_slice(), source),
        Err(LexFault::At { line, rule }) => Err(SyntaxFault::At { line, rule }),
        Err(LexFault::Memory) => Err(SyntaxFault::Memory),
    }
}
