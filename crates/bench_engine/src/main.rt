//! Runs the engine on a layered matrix that is drawn at random, and writes what it finds. The words are a family
//! (`symbols`, `constants` or `mixed`) and how many equations and unknowns there are, from 1 to 4,096. It tells how
//! many searches there were and how many steps, which are looks at columns and pivots.
#![tactic(auto)]

ghost use Rattle.std.specs.Prelude.{◌≤◌, IfSome};
ghost use Rattle.limits.specs.Limits.{equation_limit};

mod draws;
mod layering;
mod solving;

use draws::Family;
use limits::EQUATION_LIMIT;
use solving::{Found, solve};
use std::env;
use std::marker::Brand;
use std::process::ExitCode;
use std::rt::Env;
use std::sync::ledger::Blank;

fn main(rt: HostRuntime) -> ExitCode {
    let Some((family, size)) = words(&rt) else {
        return ExitCode::from(2);
    };
    let Ok(found) = solve::<Brand>(rt.alloc(), family, size, Blank::new(1)) else {
        return ExitCode::from(6);
    };
    let Found {
        columns,
        pair,
        free,
        least,
        searches,
        looks,
        pivots,
    } = found;
    let written = println!(rt;
        "{} {size}: {columns} columns, {pair} in the pair, {free} free, {least} in the least minimiser; {searches} searches, {} steps, of them {pivots} pivots",
        family.name(),
        looks.saturating_add(pivots)
    );
    match written {
        Ok(()) => ExitCode::from(0),
        Err(_) => ExitCode::from(5),
    }
}

// The family and how many equations it has.
fn words(rt: &(impl Env + AllocGlobal)) -> Option<(Family, usize)>
    ensures some { IfSome result (λ w. 1 ≤ w.1) }
    ensures few { IfSome result (λ w. w.1 ≤ equation_limit) }
{
    let words: Vec<String> = env::args(rt).ok()?.collect(rt.alloc()).ok()?;
    match words.as_slice() {
        [_, family, size] => {
            let family = Family::named(family.as_str())?;
            let size = size.as_str().parse::<usize>().ok()?;
            if 1 <= size && size <= EQUATION_LIMIT {
                Some((family, size))
            } else {
                None
            }
        }
        _ => None,
    }
}
