ghost use Rattle.std.specs.Prelude.{◌≡◌, ◌+◌, ◌<◌, ◌≤◌, ◌^◌, List, length, take, drop, [], ◌∷◌, Ok, OnOk, IfOk, IfErr};
ghost use Rattle.ff_lexer.specs.Bytes.{behind as context_behind};
ghost use Rattle.ff_lexer.specs.Lexemes.{Lexed, tokens_behind, meaning, so_far, both};
ghost use Rattle.ff_lexer.specs.Lines.{Draft, breaking, lesser, fresh, broken, measured, continued, parted, placed, begins, added, in_body, at_end, then_more, on_rest, behind_blanks, on_continuation, on_line, statements_from};
ghost use Rattle.ff_lexer.specs.Statements.{Found, greatest_source, ahead, told, found_in, drafts_of, statements_of};
ghost use Rattle.ff_lexer.specs.Told.{Relates};
ghost use Rattle.ff_lexer.specs.Reads.{draft, left, first_line, ending, line_size, Gives};
ghost use Rattle.ff_lexer.specs.Spans.{token_as, end_of, views, spelled_statements, StatementsLie, Answers};

use crate::bytes::{
    Context, behind, ends, first_of, is_blank, is_code, is_comment, is_continued, is_dropped,
};
use crate::lexeme::{Lexeme, Placed, What, behind_front, first_placed, lexeme_at, through};
use crate::token::{Kind, Stmt, Token};
use lf_base::{LexFault, Rule};
use std::alloc::Global;

const GREATEST_SOURCE: usize = 1_048_576;

const GREATEST_LINE: usize = 132;

const GREATEST_CONTINUATIONS: u32 = 255;

/// Why a statement has no tokens.
enum Refusal {
    Broken(Rule),
    Memory,
}

fn lesser(first: Rule, second: Rule) -> Rule
    ensures { result ≡ lesser first second }
{
    if second.number() < first.number() {
        second
    } else {
        first
    }
}

// The least rule that is broken, where this one is too.
fn breaking(rule: Rule, fault: Option<Rule>) -> Option<Rule>
    ensures { result ≡ breaking rule fault }
{
    match fault {
        None => Some(rule),
        Some(least) => Some(lesser(least, rule)),
    }
}

fn end_of(bytes: &[Placed]) -> u32
    ensures { result ≡ end_of 0 bytes.now }
{
    let mut end = 0;
    for placed in bytes {
        end = placed.end;
    }
    end
}

fn token(kind: Kind, bytes: &[Placed]) -> Token
    ensures { result ≡ token_as kind bytes.now }
{
    let from = match bytes {
        [] => 0,
        [first, ..] => first.end.saturating_sub(1),
    };
    Token {
        kind,
        from,
        to: end_of(bytes),
    }
}

// Takes a lexeme of these bytes.
#[tactic(auto, using(crate::proofs::Lexing::breaks_more))]
fn take(
    tokens: &mut Vec<Token>,
    fault: Option<Rule>,
    what: What,
    bytes: &[Placed],
) -> Result<Option<Rule>, Refusal>
    ensures { (more : Lexed Token) → Gives (λ fault. both (so_far tokens.new.items fault) more) result (both (so_far tokens.old.items fault) (both (meaning token_as what bytes.now) more)) }
{
    match what {
        What::Gap => Ok(fault),
        What::Breaks(rule) => Ok(breaking(rule, fault)),
        What::Is(kind) => match tokens.push(token(kind, bytes)) {
            Ok(()) => Ok(fault),
            Err(_) => Err(Refusal::Memory),
        },
    }
}

// The tokens of a statement whose lines break this rule.
#[tactic(auto, using(crate::proofs::Lexing::passed_over))]
fn tokens(alloc: Global, text: &[Placed], fault: Option<Rule>) -> Result<Vec<Token>, Refusal>
    requires { length text.now < 2 ^ 63 }
    ensures { Gives (λ v. Ok v.items) result (both (so_far [] fault) (tokens_behind token_as 0 text.now)) }
{
    let mut tokens = Vec::new(alloc);
    let mut fault = fault;
    let mut rest = text;
    while let Some((first, behind)) = first_placed(rest) {
        let Lexeme { more, what } = lexeme_at(first.byte, behind);
        fault = take(&mut tokens, fault, what, through(rest, more))?;
        rest = behind_front(behind, more);
    }
    match fault {
        None => Ok(tokens),
        Some(rule) => Err(Refusal::Broken(rule)),
    }
}

#[derive(Drop)]
struct Reader {
    done: Vec<Stmt>,
    /// The line that is read, counted from 1.
    line: u32,
    /// The line on which the open statement begins.
    start: u32,
    /// The text of the open statement, with a newline where it goes on without a leading `&`.
    text: Vec<Placed>,
    /// Where the next byte of the text stands.
    context: Context,
    /// Whether more than blanks and `&` is in the text.
    has_begun: bool,
    continuations: u32,
    /// The least rule that the lines of the open statement break.
    fault: Option<Rule>,
}

impl Reader {
    fn new(alloc: Global) -> Reader
        ensures left { (drafts : List Draft) → left result drafts ≡ found_in token_as drafts }
        ensures draft { draft result ≡ fresh 1 }
        ensures line { result.line ≡ 1 }
    {
        Reader {
            done: Vec::new(alloc),
            line: 1,
            start: 1,
            text: Vec::new(alloc),
            context: Context::Code,
            has_begun: false,
            continuations: 0,
            fault: None,
        }
    }

    fn breaks(&mut self, rule: Rule)
        ensures draft { draft self.new ≡ broken rule (draft self.old) }
        ensures done { self.new.done.items ≡ self.old.done.items }
        ensures line { self.new.line ≡ self.old.line }
    {
        self.fault = breaking(rule, self.fault);
    }

    fn measure(&mut self, bytes: &[u8])
        ensures draft { draft self.new ≡ measured bytes.now (draft self.old) }
        ensures done { self.new.done.items ≡ self.old.done.items }
        ensures line { self.new.line ≡ self.old.line }
    {
        if bytes.len() > GREATEST_LINE {
            self.breaks(Rule::E103);
        }
    }

    // The open statement has one more continuation line.
    fn continue_it(&mut self)
        ensures draft { draft self.new ≡ continued (draft self.old) }
        ensures done { self.new.done.items ≡ self.old.done.items }
        ensures line { self.new.line ≡ self.old.line }
    {
        if self.continuations < GREATEST_CONTINUATIONS {
            self.continuations += 1;
        } else {
            self.breaks(Rule::E104);
        }
    }

    // The open statement goes on without a leading `&`.
    fn part(&mut self, at: u32) -> Result<(), LexFault>
        ensures draft { OnOk result (draft self.new ≡ parted at (draft self.old)) }
        ensures done { self.new.done.items ≡ self.old.done.items }
        ensures memory { IfErr result (λ e. e ≡ LexFault.Memory) }
        ensures line { self.new.line ≡ self.old.line }
    {
        self.text.push(Placed {
            byte: b'\n',
            end: at,
        })?;
        self.context = Context::Code;
        Ok(())
    }

    // One more byte of the open statement, which lies at this place.
    fn add(&mut self, at: u32, byte: u8) -> Result<(), LexFault>
        requires { at < 2 ^ 24 }
        ensures draft { OnOk result (draft self.new ≡ added (draft self.old) (placed at byte)) }
        ensures done { self.new.done.items ≡ self.old.done.items }
        ensures memory { IfErr result (λ e. e ≡ LexFault.Memory) }
        ensures line { self.new.line ≡ self.old.line }
    {
        self.text.push(Placed { byte, end: at + 1 })?;
        self.context = behind(self.context, byte);
        self.has_begun = self.has_begun || begins(byte);
        Ok(())
    }

    // The open statement ends, and the next one begins on this line.
    fn finish(&mut self, alloc: Global, next: u32) -> Result<(), LexFault>
        ensures done { (drafts : List Draft) → Answers (λ _. left self.new drafts) result (left self.old (draft self.old ∷ drafts)) }
        ensures draft { OnOk result (draft self.new ≡ fresh next) }
        ensures line { self.new.line ≡ self.old.line }
    {
        match tokens(alloc, self.text.as_slice(), self.fault) {
            Ok(tokens) => self.keep(tokens)?,
            Err(Refusal::Broken(rule)) => {
                return Err(LexFault::At {
                    line: self.start,
                    rule,
                });
            }
            Err(Refusal::Memory) => return Err(LexFault::Memory),
        }
        self.text.clear();
        self.start = next;
        self.context = Context::Code;
        self.has_begun = false;
        self.continuations = 0;
        self.fault = None;
        Ok(())
    }

    // A statement with these tokens, if there are any.
    fn keep(&mut self, tokens: Vec<Token>) -> Result<(), LexFault>
        ensures done { (more : Found Token) → Answers (λ _. ahead (views self.new.done.items) more) result (ahead (views self.old.done.items) (told self.old.start (Ok tokens.items) more)) }
        ensures line { self.new.line ≡ self.old.line }
    {
        if tokens.is_empty() {
            return Ok(());
        }
        self.done.push(Stmt {
            line: self.start,
            tokens,
        })?;
        Ok(())
    }
}

// A line behind its leading blanks, and the place where that begins.
fn behind_blanks(start: u32, whole: &[u8]) -> (u32, &[u8])
    requires { start + length whole.now < 2 ^ 24 }
    ensures value { (result.0, result.1.now) ≡ behind_blanks start whole.now }
    ensures within { result.0 + length result.1.now ≡ start + length whole.now }
{
    let mut at = start;
    let mut rest = whole;
    while let Some((byte, behind)) = first_of(rest) {
        if !is_blank(byte) {
            return (at, rest);
        }
        at += 1;
        rest = behind;
    }
    (at, rest)
}

// Whether a statement begins with this byte.
fn begins(byte: u8) -> bool
    ensures { result ≡ begins byte }
{
    !(is_blank(byte) || byte == b'&' || byte == b';')
}

impl Reader {
    // The line ends, and the open statement with it, unless it goes on.
    fn end_line(&mut self, alloc: Global, goes_on: bool) -> Result<(), LexFault>
        requires { self.old.line < 2 ^ 24 }
        ensures step { (more : Draft → List Draft) → Answers (λ _. left self.new (more (draft self.new))) result (left self.old (then_more (at_end self.old.line (draft self.old) goes_on) more)) }
        ensures line { self.new.line ≡ self.old.line }
    {
        if goes_on {
            if self.has_begun {
                return Ok(());
            }
            self.breaks(Rule::E106);
        }
        let next = self.line + 1;
        self.finish(alloc, next)
    }

    // The rest of a line.
    fn read_rest(&mut self, alloc: Global, at: u32, bytes: &[u8]) -> Result<(), LexFault>
        requires line { self.old.line < 2 ^ 24 }
        requires at { at + length bytes.now < 2 ^ 24 }
        ensures step { (more : Draft → List Draft) → Answers (λ _. left self.new (more (draft self.new))) result (left self.old (on_rest self.old.line (draft self.old) at bytes.now more)) }
        ensures line { self.new.line ≡ self.old.line }
    {
        let mut rest = bytes;
        let mut at = at;
        while let Some((byte, behind)) = first_of(rest) {
            if is_continued(self.context, byte, behind) {
                return self.end_line(alloc, true);
            }
            if is_comment(self.context, byte) {
                return self.end_line(alloc, false);
            }
            match self.read_byte(alloc, at, byte) {
                Ok(()) => {}
                Err(fault) => return Err(fault),
            }
            rest = behind;
            at += 1;
        }
        self.end_line(alloc, false)
    }

    // A byte of the body of a line.
    fn read_byte(&mut self, alloc: Global, at: u32, byte: u8) -> Result<(), LexFault>
        requires { at < 2 ^ 24 }
        ensures step { (rest : List Placed) (more : Draft → List Draft) → Answers (λ _. left self.new (then_more (in_body self.old.line (draft self.new) rest) more)) result (left self.old (then_more (in_body self.old.line (draft self.old) (placed at byte ∷ rest)) more)) }
        ensures context { OnOk result (self.new.context ≡ context_behind self.old.context byte) }
        ensures line { self.new.line ≡ self.old.line }
    {
        if byte == b';' && is_code(self.context) && self.has_begun {
            let line = self.line;
            return self.finish(alloc, line);
        }
        self.add(at, byte)
    }
}

impl Reader {
    // A line behind one that ends in `&`, of which these bytes are left behind its leading blanks.
    fn continue_with(
        &mut self,
        alloc: Global,
        start: u32,
        whole: &[u8],
        at: u32,
        bytes: &[u8],
    ) -> Result<(), LexFault>
        requires line { self.old.line < 2 ^ 24 }
        requires start { start + length whole.now < 2 ^ 24 }
        requires at { at + length bytes.now < 2 ^ 24 }
        ensures step { (more : Draft → List Draft) → Answers (λ _. left self.new (more (draft self.new))) result (left self.old (on_continuation self.old.line (draft self.old) (start, whole.now) at bytes.now more)) }
        ensures line { self.new.line ≡ self.old.line }
    {
        match bytes {
            [] | [b'!', ..] => Ok(()),
            [b'&', behind @ ..] => {
                self.continue_it();
                if ends(self.context, behind) {
                    self.breaks(Rule::E106);
                    return Ok(());
                }
                self.read_rest(alloc, at + 1, behind)
            }
            _ => {
                self.continue_it();
                self.part(start)?;
                self.read_rest(alloc, start, whole)
            }
        }
    }

    fn read_line(&mut self, alloc: Global, start: u32, whole: &[u8]) -> Result<(), LexFault>
        requires line { self.old.line < 2 ^ 24 }
        requires start { start + length whole.now < 2 ^ 24 }
        ensures step { (more : Draft → List Draft) → Answers (λ _. left self.new (more (draft self.new))) result (left self.old (on_line self.old.line (draft self.old) (start, whole.now) more)) }
        ensures line { self.new.line ≡ self.old.line }
    {
        self.measure(whole);
        if self.has_begun {
            let (at, bytes) = behind_blanks(start, whole);
            self.continue_with(alloc, start, whole, at, bytes)
        } else {
            self.read_rest(alloc, start, whole)
        }
    }

    // The source ends.
    fn end(self, alloc: Global) -> Result<Vec<Stmt>, LexFault>
        ensures { Answers (λ v. Ok (views v.items)) result (left self (statements_from self.line (draft self) [])) }
    {
        if self.has_begun {
            return self.end_broken(alloc);
        }
        Ok(self.done)
    }
}

impl Reader {
    // The source ends, and the `&` of the open statement continues nothing.
    fn end_broken(mut self, alloc: Global) -> Result<Vec<Stmt>, LexFault>
        ensures { Answers (λ v. Ok (views v.items)) result (left self (broken Rule.E106 (draft self) ∷ [])) }
    {
        let line = self.line;
        self.breaks(Rule::E106);
        match self.finish(alloc, line) {
            Ok(()) => Ok(self.done),
            Err(fault) => Err(fault),
        }
    }
}

// How many bytes the first line has, without what ends it.
fn line_length(bytes: &[u8]) -> usize
    ensures length { result ≡ length (first_line bytes.now) }
    ensures line { take result bytes.now ≡ first_line bytes.now }
    ensures within { result ≤ length bytes.now }
{
    let mut count = 0;
    let mut rest = bytes;
    while let [byte, behind @ ..] = rest {
        if *byte == b'\n' || is_dropped(*byte, behind) {
            return count;
        }
        count += 1;
        rest = behind;
    }
    count
}

// How many bytes end a line.
fn ending(bytes: &[u8]) -> usize
    ensures size { result ≡ ending bytes.now }
    ensures within { result ≤ length bytes.now }
{
    match bytes {
        [] => 0,
        [b'\r', _, ..] => 2,
        _ => 1,
    }
}

// The first line, how many bytes it has with what ends it, and the bytes behind it.
fn split_line(bytes: &[u8]) -> (&[u8], usize, &[u8])
    ensures line { result.0.now ≡ first_line bytes.now }
    ensures size { result.1 ≡ line_size bytes.now }
    ensures behind { result.2.now ≡ drop (line_size bytes.now) bytes.now }
    ensures within { result.1 + length result.2.now ≡ length bytes.now }
{
    let count = line_length(bytes);
    let size = count + ending(&bytes[count..]);
    (&bytes[..count], size, &bytes[size..])
}

fn read_all(alloc: Global, source: &[u8]) -> Result<Vec<Stmt>, LexFault>
    requires { length source.now ≤ greatest_source }
    ensures { Answers (λ v. Ok (views v.items)) result (found_in token_as (drafts_of source.now)) }
{
    let mut reader = Reader::new(alloc);
    let mut at = 0;
    let mut rest = source;
    while !rest.is_empty() {
        let (line, size, behind) = split_line(rest);
        match reader.read_line(alloc, at, line) {
            Ok(()) => {}
            Err(fault) => return Err(fault),
        }
        reader.line += 1;
        at += size as u32;
        rest = behind;
    }
    reader.end(alloc)
}

// The same, unless the source is too large.
fn read_source(alloc: Global, source: &[u8]) -> Result<Vec<Stmt>, LexFault>
    ensures spelled { Answers (λ v. Ok (spelled_statements source.now v.items)) result (statements_of source.now) }
    ensures places { IfOk result (λ v. StatementsLie 0 (length source.now) (views v.items)) }
{
    if source.len() > GREATEST_SOURCE {
        return Err(LexFault::At {
            line: 1,
            rule: Rule::E108,
        });
    }
    read_all(alloc, source)
}

/// The statements of a source in reading order, each with the tokens that it is made of (ISO/IEC 1539-1:2018, 6.2 and
/// 6.3.2). A source of more than 1,048,576 bytes is refused with E108 at line 1. Else the first statement that breaks
/// a rule is told, with the line on which it begins and its least rule:
///
/// - E101: a byte outside character constants and comments begins no token;
/// - E102: a character constant is not closed;
/// - E103: a line has more than 132 bytes; a line on which no statement is open or begins is its own place;
/// - E104: it has more than 255 continuation lines, blank lines and comments not counted;
/// - E105: a name has more than 63 bytes;
/// - E106: a `&` continues nothing, stands in the middle, or stands alone on its line;
/// - E107: digits are followed at once by a letter, by `_` without exactly `4` or `8`, or by a `.` that begins no
///   word between points.
///
/// Statements are answered exactly where the text is related to such a list, which is then the only one.
pub fn statements(alloc: Global, source: &[u8]) -> Result<Vec<Stmt>, LexFault>
    ensures spelled { Answers (λ v. Ok (spelled_statements source.now v.items)) result (statements_of source.now) }
    ensures related { Relates source.now (λ v. spelled_statements source.now v.items) result }
    ensures places { IfOk result (λ v. StatementsLie 0 (length source.now) (views v.items)) }
{
    read_source(alloc, source)
}
