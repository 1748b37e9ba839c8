ghost use Rattle.std.specs.Prelude.{◌≡◌, Some};
ghost use Rattle.ff_expressions.specs.Signs.{operator, of_one, of_twice, of_relation, of_pair, of_two, same_word, of_relation_word, of_word, sign_of};

use crate::item::{Bracket, Mark};
use lf_base::operator;

/// What a token that is no name, number or character constant is.
#[derive(Clone, Copy)]
pub enum Sign {
    Mark { mark: Mark },
    Truth { value: u8 },
    Opening { bracket: Bracket },
    Closing { bracket: Bracket },
}

fn operator(code: u8) -> Option<Sign>
    ensures { result ≡ operator code }
{
    mark(Mark::Operator { code })
}

fn mark(mark: Mark) -> Option<Sign>
    ensures { result ≡ Some (Sign.Mark mark) }
{
    Some(Sign::Mark { mark })
}

fn opening(bracket: Bracket) -> Option<Sign>
    ensures { result ≡ Some (Sign.Opening bracket) }
{
    Some(Sign::Opening { bracket })
}

fn closing(bracket: Bracket) -> Option<Sign>
    ensures { result ≡ Some (Sign.Closing bracket) }
{
    Some(Sign::Closing { bracket })
}

fn of_one(byte: u8) -> Option<Sign>
    ensures { result ≡ of_one byte }
{
    match byte {
        b'+' => operator(operator::ADD),
        b'-' => operator(operator::SUBTRACT),
        b'*' => operator(operator::MULTIPLY),
        b'/' => operator(operator::DIVIDE),
        b'<' => operator(operator::LT),
        b'>' => operator(operator::GT),
        b'(' => opening(Bracket::Round),
        b')' => closing(Bracket::Round),
        b'[' => opening(Bracket::Square),
        b']' => closing(Bracket::Square),
        b',' => mark(Mark::Comma),
        b':' => mark(Mark::Colon),
        b'=' => mark(Mark::Equals),
        b'%' => mark(Mark::Percent),
        _ => None,
    }
}

// A byte twice.
fn of_twice(byte: u8) -> Option<Sign>
    ensures { result ≡ of_twice byte }
{
    match byte {
        b'*' => operator(operator::POWER),
        b'/' => operator(operator::CONCATENATE),
        b'=' => operator(operator::EQ),
        b':' => mark(Mark::DoubleColon),
        _ => None,
    }
}

// A byte and `=`.
fn of_relation(byte: u8) -> Option<Sign>
    ensures { result ≡ of_relation byte }
{
    match byte {
        b'/' => operator(operator::NE),
        b'<' => operator(operator::LE),
        b'>' => operator(operator::GE),
        _ => None,
    }
}

fn of_pair(first: u8, second: u8) -> Option<Sign>
    ensures { result ≡ of_pair first second }
{
    if first == b'(' && second == b'/' {
        return opening(Bracket::Square);
    }
    if first == b'/' && second == b')' {
        return closing(Bracket::Square);
    }
    if first == b'=' && second == b'>' {
        return mark(Mark::Arrow);
    }
    None
}

fn of_two(first: u8, second: u8) -> Option<Sign>
    ensures { result ≡ of_two first second }
{
    if first == second {
        return of_twice(first);
    }
    if second == b'=' {
        return of_relation(first);
    }
    of_pair(first, second)
}

fn same_word(bytes: &[u8], word: &[u8]) -> bool
    ensures { result ≡ same_word bytes.now word.now }
{
    bytes.eq_ignore_ascii_case(word)
}

fn of_relation_word(bytes: &[u8]) -> Option<Sign>
    ensures { result ≡ of_relation_word bytes.now }
{
    if same_word(bytes, b".eq.") {
        return operator(operator::EQ);
    }
    if same_word(bytes, b".ne.") {
        return operator(operator::NE);
    }
    if same_word(bytes, b".lt.") {
        return operator(operator::LT);
    }
    if same_word(bytes, b".le.") {
        return operator(operator::LE);
    }
    if same_word(bytes, b".gt.") {
        return operator(operator::GT);
    }
    if same_word(bytes, b".ge.") {
        return operator(operator::GE);
    }
    None
}

fn of_word(bytes: &[u8]) -> Option<Sign>
    ensures { result ≡ of_word bytes.now }
{
    if same_word(bytes, b".and.") {
        return operator(operator::AND);
    }
    if same_word(bytes, b".or.") {
        return operator(operator::OR);
    }
    if same_word(bytes, b".eqv.") {
        return operator(operator::EQV);
    }
    if same_word(bytes, b".neqv.") {
        return operator(operator::NEQV);
    }
    if same_word(bytes, b".not.") {
        return operator(operator::NOT);
    }
    if same_word(bytes, b".false.") {
        return Some(Sign::Truth { value: 0 });
    }
    if same_word(bytes, b".true.") {
        return Some(Sign::Truth { value: 1 });
    }
    of_relation_word(bytes)
}

/// What the bytes of such a token spell. None where they spell nothing.
pub fn sign_of(bytes: &[u8]) -> Option<Sign>
    ensures { result ≡ sign_of bytes.now }
{
    match bytes {
        [byte] => of_one(*byte),
        [first, second] => of_two(*first, *second),
        _ => of_word(bytes),
    }
}
