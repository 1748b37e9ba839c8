ghost use Rattle.std.specs.Prelude.{◌≡◌, IfOk, Some, map};
ghost use Rattle.ff_lexer.specs.Spans.{spelled};
ghost use Rattle.ff_expressions.specs.Signs.{sign_of};
ghost use Rattle.ff_expressions.specs.Items.{with_item, opened_by, is_round, same_bracket, number_of, parts_of, going, closed_with, closed_by, with_mark, with_token, end_of, start, items_of};

use crate::item::{Bracket, Item};
use crate::part::parts;
use crate::queue::Queue;
use crate::sign::{Sign, sign_of};
use crate::spelling::{digits, suffix, text};
use ff_lexer::{Kind, Token, spell};
use lf_base::{Memory, Name};
use std::alloc::Global;

/// A group that is open, with the items before it.
#[derive(Drop)]
pub struct Opened {
    bracket: Bracket,
    before: Queue<Item>,
}

/// The groups that are open, the innermost first, and the items since.
#[derive(Drop)]
pub struct Reader {
    opened: Queue<Opened>,
    items: Queue<Item>,
}

fn same_bracket(one: Bracket, other: Bracket) -> bool
    ensures { result ≡ same_bracket one other }
{
    match one {
        Bracket::Round => is_round(other),
        Bracket::Square => !is_round(other),
    }
}

fn is_round(bracket: Bracket) -> bool
    ensures { result ≡ is_round bracket }
{
    match bracket {
        Bracket::Round => true,
        Bracket::Square => false,
    }
}

fn number(alloc: Global, bytes: &[u8]) -> Result<Item, Memory>
    ensures { IfOk result (λ r. r ≡ number_of bytes.now) }
{
    Ok(Item::Number {
        digits: digits(alloc, bytes)?,
        suffix: suffix(bytes),
    })
}

impl Reader {
    // Nothing has been read of so many tokens.
    fn start(alloc: Global, tokens: usize) -> Result<Reader, Memory>
        ensures { IfOk result (λ r. r ≡ start) }
    {
        Ok(Reader {
            opened: Queue::new(alloc),
            items: Queue::with_capacity(alloc, tokens)?,
        })
    }

    fn with_item(&mut self, item: Item) -> Result<bool, Memory>
        ensures { IfOk result (λ goes_on. going goes_on self.new ≡ Some (with_item self.old item)) }
    {
        self.items.push(item)?;
        Ok(true)
    }

    fn opened_by(&mut self, alloc: Global, bracket: Bracket) -> Result<bool, Memory>
        ensures { IfOk result (λ goes_on. going goes_on self.new ≡ Some (opened_by bracket self.old)) }
    {
        let before = std::mem::replace(&mut self.items, Queue::new(alloc));
        self.opened.put_first(Opened { bracket, before })?;
        Ok(true)
    }

    // The items in the innermost group end.
    fn with_group(
        &mut self,
        alloc: Global,
        bracket: Bracket,
        items: Queue<Item>,
    ) -> Result<bool, Memory>
        ensures { IfOk result (λ goes_on. going goes_on self.new ≡ closed_with (record { bracket = bracket; before = self.old.items }) self.old.opened (parts_of items)) }
    {
        match parts(alloc, items)? {
            Some(parts) => self.with_item(Item::Group { bracket, parts }),
            None => Ok(false),
        }
    }

    fn closed_by(&mut self, alloc: Global, bracket: Bracket) -> Result<bool, Memory>
        ensures { IfOk result (λ goes_on. going goes_on self.new ≡ closed_by bracket self.old.opened self.old.items) }
    {
        let Some(group) = self.opened.take() else {
            return Ok(false);
        };
        if !same_bracket(group.bracket, bracket) {
            return Ok(false);
        }
        let Opened { bracket, before } = group;
        let items = std::mem::replace(&mut self.items, before);
        self.with_group(alloc, bracket, items)
    }

    fn with_mark(&mut self, alloc: Global, sign: Option<Sign>) -> Result<bool, Memory>
        ensures { IfOk result (λ goes_on. going goes_on self.new ≡ with_mark self.old sign) }
    {
        match sign {
            Some(Sign::Mark { mark }) => self.with_item(Item::Mark { mark }),
            Some(Sign::Truth { value }) => self.with_item(Item::Truth { value }),
            Some(Sign::Opening { bracket }) => self.opened_by(alloc, bracket),
            Some(Sign::Closing { bracket }) => self.closed_by(alloc, bracket),
            None => Ok(false),
        }
    }

    // Reads a token. False where it can't stand here.
    fn with_token(&mut self, alloc: Global, kind: Kind, bytes: &[u8]) -> Result<bool, Memory>
        ensures { IfOk result (λ goes_on. going goes_on self.new ≡ with_token self.old kind bytes.now) }
    {
        match kind {
            Kind::Word => {
                let name = Name::new(alloc, bytes)?;
                self.with_item(Item::Word { name })
            }
            Kind::Number => {
                let item = number(alloc, bytes)?;
                self.with_item(item)
            }
            Kind::Text => {
                let bytes = text(alloc, bytes)?;
                self.with_item(Item::Text { bytes })
            }
            Kind::Mark => self.with_mark(alloc, sign_of(bytes)),
        }
    }

    fn finish(self) -> Option<Queue<Item>>
        ensures { result ≡ end_of self }
    {
        let Reader { mut opened, items } = self;
        match opened.take() {
            None => Some(items),
            Some(_) => None,
        }
    }
}

/// The items of a statement's tokens. None where its brackets do not match, or what stands between two commas of a group is
/// no part.
pub fn items(alloc: Global, source: &[u8], tokens: &[Token]) -> Result<Option<Queue<Item>>, Memory>
    ensures { IfOk result (λ r. r ≡ items_of (map (spelled source.now) tokens.now)) }
{
    let mut reader = Reader::start(alloc, tokens.len())?;
    let mut bytes = Vec::new(alloc);
    for token in tokens {
        spell(&mut bytes, source, token)?;
        if !reader.with_token(alloc, token.kind, bytes.as_slice())? {
            return Ok(None);
        }
    }
    Ok(reader.finish())
}
