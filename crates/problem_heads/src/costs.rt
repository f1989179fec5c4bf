//! Costs.

ghost use Rattle.std.specs.Prelude.{◌≡◌, Ok, Err, nat_eq, length, IfOk, OnOk, MatchResult};
ghost use Rattle.std.specs.Char.{is_ascii_digit};
ghost use Rattle.std.specs.List.{list_all, list_any};
ghost use Rattle.problem_heads.specs.HeadNumbers.{cost_of, is_cost};
ghost use Rattle.problem_heads.specs.Problems.{different, see_number};

use out_of_memory::NoMemory;
use refusals::Why;
use std::alloc::Global;

// How many digits a cost has at most.
const MOST_DIGITS: usize = 9;

/// The cost that a text is: 1 to 9 digits. Any other text is `BadNumber`.
pub(crate) fn cost(text: &str) -> Result<u64, Why>
    ensures { MatchResult result (λ cost. cost_of text.now ≡ Ok cost) (λ why. cost_of text.now ≡ Err why) }
{
    if !is_cost(text) {
        return Err(Why::BadNumber);
    }
    match text.parse::<u64>() {
        Ok(cost) => Ok(cost),
        Err(_) => unreachable!(),
    }
}

fn is_cost(text: &str) -> bool
    ensures { result ≡ is_cost text.now }
{
    !text.is_empty() && text.len() <= MOST_DIGITS && are_digits(text.as_bytes())
}

fn are_digits(bytes: &[u8]) -> bool
    ensures { result ≡ list_all is_ascii_digit bytes.now }
{
    bytes.iter().all(|byte| byte.is_ascii_digit())
}

/// How many different ones some costs are.
pub(crate) fn count_different(alloc: Global, costs: &[u64]) -> Result<usize, NoMemory>
    ensures { IfOk result (λ count. count ≡ length (different costs.now)) }
{
    let mut seen = Vec::new(alloc);
    for cost in costs {
        see_cost(&mut seen, *cost)?;
    }
    Ok(seen.len())
}

// Puts a cost last, unless it is there.
#[tactic(auto, using(crate::proofs::CostTexts::see_laws))]
fn see_cost(seen: &mut Vec<u64>, cost: u64) -> Result<(), NoMemory>
    ensures { OnOk result (seen.new.items ≡ see_number seen.old.items cost) }
{
    if is_among(seen, cost) {
        return Ok(());
    }
    seen.push(cost)?;
    Ok(())
}

fn is_among(costs: &[u64], cost: u64) -> bool
    ensures { result ≡ list_any (nat_eq cost) costs.now }
{
    costs.iter().any(|other| cost == *other)
}
