//! Equations that are kept along an order, or by falling cost.

use crate::models::{LONE_EQUATION, SPLIT_PAIR, THREE_OF_ONE, model_of, tell_numbers};
use equation_choice::{kept, kept_by_cost};
use std::alloc::Global;
use std::process::Abort;
use std::test::Fail;

// The equations of a list that are kept with these costs.
fn told_by_cost(rt: &impl Abort, alloc: Global, text: &str, costs: &[u64]) -> Result<String, Fail> {
    let model = model_of(rt, alloc, text)?;
    assert!(rt; costs.len() == model.equations());
    let mut told = String::new(alloc);
    tell_numbers(alloc, &kept_by_cost(alloc, &model, costs)?, &mut told)?;
    Ok(told)
}

// Of each equation of a list, whether it is kept along an order.
fn marked_along(
    rt: &impl Abort,
    alloc: Global,
    text: &str,
    order: &[usize],
) -> Result<Vec<bool>, Fail> {
    let model = model_of(rt, alloc, text)?;
    let count = model.equations();
    assert!(rt; order.iter().all(|equation| *equation < count));
    Ok(kept(alloc, &model, order)?)
}

// Of equations that clash the first one along the order is kept, independent ones are all kept, and one with nothing is
// not.
const ORDERS: [(&str, &[usize], &[bool]); 4] = [
    (THREE_OF_ONE, &[2, 0, 1], &[false, false, true]),
    (THREE_OF_ONE, &[1, 2, 0], &[false, true, false]),
    (SPLIT_PAIR, &[1, 0], &[true, true]),
    (LONE_EQUATION, &[0], &[false]),
];

#[test]
fn the_first_equations_along_an_order_are_kept(rt: HostRuntime) -> Result<(), Fail> {
    for (text, order, wanted) in ORDERS {
        assert_eq!(rt;
            marked_along(&rt, rt.alloc(), text, order)?.as_slice(),
            wanted
        );
    }
    Ok(())
}

// Of equations that clash the dearest one is kept, and the first of those that cost the same.
const COSTS: [(&str, &[u64], &str); 4] = [
    (THREE_OF_ONE, &[3, 2, 1], " 0"),
    (THREE_OF_ONE, &[1, 2, 3], " 2"),
    (THREE_OF_ONE, &[1, 1, 1], " 0"),
    (SPLIT_PAIR, &[1, 5], " 0 1"),
];

#[test]
fn the_dearest_equations_are_kept(rt: HostRuntime) -> Result<(), Fail> {
    for (text, costs, wanted) in COSTS {
        assert_eq!(rt;
            told_by_cost(&rt, rt.alloc(), text, costs)?.as_str(),
            wanted
        );
    }
    Ok(())
}
