//! Of rules that are broken the least is told.
ghost use Rattle.std.specs.Prelude.{◌≡◌};
ghost use Rattle.ast_to_asr.specs.Judged.{lesser, also, both, map_right};

use crate::facts::Facts;
use lf_base::Rule;

/// The rule of the lesser number.
pub(super) fn lesser(first: Rule, second: Rule) -> Rule
    ensures { result ≡ lesser first second }
{
    if second.number() < first.number() {
        second
    } else {
        first
    }
}

/// The least of a rule and of the one that an expression breaks, if it breaks one.
pub(super) fn also(rule: Rule, told: Result<Facts, Rule>) -> Rule
    ensures { result ≡ also rule told }
{
    match told {
        Ok(_) => rule,
        Err(other) => lesser(rule, other),
    }
}

/// Both parts, or the least rule that one of them breaks.
pub(super) fn both<X: Copy, Y: Copy>(
    first: Result<X, Rule>,
    second: Result<Y, Rule>,
) -> Result<(X, Y), Rule>
    ensures { result ≡ both first second }
{
    match (first, second) {
        (Ok(x), Ok(y)) => Ok((x, y)),
        (Ok(_), Err(rule)) => Err(rule),
        (Err(rule), Ok(_)) => Err(rule),
        (Err(rule), Err(other)) => Err(lesser(rule, other)),
    }
}
