ghost use Rattle.std.specs.Prelude.{◌≡◌, ◌+◌, ◌<◌, ◌≤◌, ◌^◌, [], ◌∷◌, false, length, take, drop, MatchOption};
ghost use Rattle.ff_lexer.specs.Lexemes as meant;
ghost use Rattle.ff_lexer.specs.Bytes.{is_letter, is_digit, is_name_byte};

use crate::bytes::{is_blank, is_digit, is_letter, is_name_byte, is_quote, lowered};
use crate::token::Kind;
use lf_base::Rule;

/// The most bytes of a name.
const GREATEST_NAME: usize = 63;

/// A byte of a statement's text, and the place behind it in the source.
#[derive(Clone, Copy)]
pub(crate) struct Placed {
    pub byte: u8,
    pub end: u32,
}

/// What some bytes are.
#[derive(Clone, Copy)]
pub(crate) enum What {
    /// What parts tokens.
    Gap,
    Is(Kind),
    Breaks(Rule),
}

/// What the next bytes are, and how many they are behind the first one.
#[derive(Clone, Copy)]
pub(crate) struct Lexeme {
    pub more: usize,
    pub what: What,
}

fn make_lexeme(more: usize, what: What) -> Lexeme
    ensures { result ≡ meant.lexeme more what }
{
    Lexeme { more, what }
}

fn letters(bytes: &[Placed]) -> usize
    ensures count { result ≡ meant.front is_letter bytes.now }
    ensures within { result ≤ length bytes.now }
{
    let mut count = 0;
    for placed in bytes {
        if !is_letter(placed.byte) {
            return count;
        }
        count += 1;
    }
    count
}

fn digits(bytes: &[Placed]) -> usize
    ensures count { result ≡ meant.front is_digit bytes.now }
    ensures within { result ≤ length bytes.now }
{
    let mut count = 0;
    for placed in bytes {
        if !is_digit(placed.byte) {
            return count;
        }
        count += 1;
    }
    count
}

fn name_bytes(bytes: &[Placed]) -> usize
    ensures count { result ≡ meant.front is_name_byte bytes.now }
    ensures within { result ≤ length bytes.now }
{
    let mut count = 0;
    for placed in bytes {
        if !is_name_byte(placed.byte) {
            return count;
        }
        count += 1;
    }
    count
}

fn first_byte(bytes: &[Placed]) -> u8
    ensures { result ≡ meant.first_byte bytes.now }
{
    match bytes {
        [] => 0,
        [first, ..] => first.byte,
    }
}

fn front(bytes: &[Placed], count: usize) -> &[Placed]
    ensures { result.now ≡ take count bytes.now }
{
    if count < bytes.len() {
        &bytes[..count]
    } else {
        bytes
    }
}

/// The first byte, and those behind it.
pub(crate) fn first_placed(bytes: &[Placed]) -> Option<(Placed, &[Placed])>
    ensures { MatchOption result (bytes.now ≡ []) (λ parts. bytes.now ≡ parts.0 ∷ parts.1.now) }
{
    match bytes {
        [] => None,
        [first, behind @ ..] => Some((*first, behind)),
    }
}

/// The first byte, and these many behind it.
pub(crate) fn through(bytes: &[Placed], more: usize) -> &[Placed]
    ensures { result.now ≡ take (more + 1) bytes.now }
{
    if more < bytes.len() {
        &bytes[..=more]
    } else {
        bytes
    }
}

pub(crate) fn behind_front(bytes: &[Placed], count: usize) -> &[Placed]
    ensures { result.now ≡ drop count bytes.now }
{
    if count < bytes.len() {
        &bytes[count..]
    } else {
        &[]
    }
}

fn is_word(word: &[u8], bytes: &[Placed]) -> bool
    ensures { result ≡ meant.is_word word.now bytes.now }
{
    let mut letters = word;
    let mut rest = bytes;
    while let [letter, more_letters @ ..] = letters {
        match rest {
            [] => return false,
            [first, more @ ..] => {
                if lowered(first.byte) != *letter {
                    return false;
                }
                letters = more_letters;
                rest = more;
            }
        }
    }
    rest.is_empty()
}

fn is_relation(bytes: &[Placed]) -> bool
    ensures { result ≡ meant.is_relation bytes.now }
{
    is_word(b"eq", bytes)
        || is_word(b"ne", bytes)
        || is_word(b"lt", bytes)
        || is_word(b"le", bytes)
        || is_word(b"gt", bytes)
        || is_word(b"ge", bytes)
}

fn is_logical(bytes: &[Placed]) -> bool
    ensures { result ≡ meant.is_logical bytes.now }
{
    is_word(b"not", bytes)
        || is_word(b"and", bytes)
        || is_word(b"or", bytes)
        || is_word(b"eqv", bytes)
        || is_word(b"neqv", bytes)
        || is_word(b"true", bytes)
        || is_word(b"false", bytes)
}

// Whether these bytes behind a point are the rest of a word between points.
fn is_dotted(bytes: &[Placed]) -> bool
    ensures { result ≡ meant.is_dotted bytes.now }
{
    let count = letters(bytes);
    let word = front(bytes, count);
    first_byte(behind_front(bytes, count)) == b'.' && (is_relation(word) || is_logical(word))
}

fn name(more: usize) -> Lexeme
    ensures { result ≡ meant.name more }
{
    if more < GREATEST_NAME {
        make_lexeme(more, What::Is(Kind::Word))
    } else {
        make_lexeme(more, What::Breaks(Rule::E105))
    }
}

fn is_kind(bytes: &[Placed]) -> bool
    ensures { result ≡ meant.is_kind bytes.now }
{
    let first = first_byte(bytes);
    name_bytes(bytes) == 1 && (first == b'4' || first == b'8')
}

// An integer literal, of which these many bytes come behind the first digit, and what follows them.
fn number(more: usize, bytes: &[Placed]) -> Lexeme
    requires { more + length bytes.now < 2 ^ 63 }
    ensures { result ≡ meant.number more bytes.now }
{
    match bytes {
        [] => make_lexeme(more, What::Is(Kind::Number)),
        [first, rest @ ..] => {
            if first.byte == b'_' {
                return suffixed(more, rest);
            }
            if is_letter(first.byte) {
                return make_lexeme(more, What::Breaks(Rule::E107));
            }
            if first.byte == b'.' && !is_dotted(rest) {
                return make_lexeme(more + 1, What::Breaks(Rule::E107));
            }
            make_lexeme(more, What::Is(Kind::Number))
        }
    }
}

// The same, where an underscore stands in front of these bytes.
fn suffixed(more: usize, bytes: &[Placed]) -> Lexeme
    requires { more + length bytes.now < 2 ^ 63 }
    ensures { result ≡ meant.suffixed more bytes.now }
{
    if is_kind(bytes) {
        make_lexeme(more + 2, What::Is(Kind::Number))
    } else {
        make_lexeme(more + 1 + name_bytes(bytes), What::Breaks(Rule::E107))
    }
}

// A character constant with this delimiter, which stands in front of these bytes.
fn constant(delimiter: u8, bytes: &[Placed]) -> Lexeme
    ensures { result ≡ meant.constant delimiter false 0 bytes.now }
{
    let mut more = 0;
    let mut may_be_over = false;
    for placed in bytes {
        if placed.byte == delimiter {
            may_be_over = !may_be_over;
        } else {
            if may_be_over {
                return make_lexeme(more, What::Is(Kind::Text));
            }
            if placed.byte == b'\n' {
                return make_lexeme(more, What::Breaks(Rule::E102));
            }
        }
        more += 1;
    }
    if may_be_over {
        make_lexeme(more, What::Is(Kind::Text))
    } else {
        make_lexeme(more, What::Breaks(Rule::E102))
    }
}

fn is_pair(first: u8, second: u8) -> bool
    ensures { result ≡ meant.is_pair first second }
{
    match first {
        b'*' => second == b'*',
        b'/' => second == b'/' || second == b'=' || second == b')',
        b'(' => second == b'/',
        b'=' => second == b'=' || second == b'>',
        b'<' | b'>' => second == b'=',
        _ => first == b':' && second == b':',
    }
}

fn is_mark(byte: u8) -> bool
    ensures { result ≡ meant.is_mark byte }
{
    matches!(
        byte,
        b'%' | b'('
            | b')'
            | b'*'
            | b'+'
            | b','
            | b'-'
            | b'/'
            | b':'
            | b'<'
            | b'='
            | b'>'
            | b'['
            | b']'
    )
}

// A mark that begins with this byte, in front of the others, if one does.
fn mark(byte: u8, bytes: &[Placed]) -> Lexeme
    ensures { result ≡ meant.mark byte bytes.now }
{
    if byte == b'.' {
        return point(bytes);
    }
    if is_pair(byte, first_byte(bytes)) {
        return make_lexeme(1, What::Is(Kind::Mark));
    }
    if is_mark(byte) {
        make_lexeme(0, What::Is(Kind::Mark))
    } else {
        make_lexeme(0, What::Breaks(Rule::E101))
    }
}

// A word between points, of which the first one stands in front of these bytes.
fn point(bytes: &[Placed]) -> Lexeme
    ensures { result ≡ meant.point bytes.now }
{
    if is_dotted(bytes) {
        make_lexeme(letters(bytes) + 1, What::Is(Kind::Mark))
    } else {
        make_lexeme(0, What::Breaks(Rule::E101))
    }
}

/// The longest lexeme that begins with this byte, in front of the others.
pub(crate) fn lexeme_at(byte: u8, bytes: &[Placed]) -> Lexeme
    requires { length bytes.now < 2 ^ 63 }
    ensures { result ≡ meant.lexeme_at byte bytes.now }
{
    if is_letter(byte) {
        return name(name_bytes(bytes));
    }
    if is_digit(byte) {
        let count = digits(bytes);
        return number(count, behind_front(bytes, count));
    }
    if is_quote(byte) {
        return constant(byte, bytes);
    }
    if is_blank(byte) || byte == b'\n' || byte == b';' {
        return make_lexeme(0, What::Gap);
    }
    if byte == b'&' {
        return make_lexeme(0, What::Breaks(Rule::E106));
    }
    mark(byte, bytes)
}
