//! Made models, against a generator of their format that was written apart.

use made_models::{SIZE_LIMIT, made_model};
use mixed_model::Mixed;
use residue_field::{Field, Res};
use std::process::Abort;
use std::test::Fail;

// An equation, an unknown, the constant at their place, and whether there is a symbol.
type Place = (usize, usize, Option<u32>, bool);

// The size, the names of the last equation and of the last unknown, and what is at some places.
const CASES: [(usize, &str, &str, &[Place]); 3] = [
    (1, "e1", "x1", &[(0, 0, None, true)]),
    (
        2,
        "e2",
        "x2",
        &[
            (0, 0, Some(33_538), false),
            (0, 1, None, true),
            (1, 0, None, true),
            (1, 1, None, true),
        ],
    ),
    (
        400,
        "e400",
        "x400",
        &[
            (0, 0, None, true),
            (0, 211, None, true),
            (0, 320, Some(7_998), false),
            (399, 37, Some(755), false),
            (399, 124, Some(64_728), false),
            (399, 253, None, true),
        ],
    ),
];

fn constant_of(rt: &impl Abort, model: &Mixed<Res>, i: usize, j: usize) -> Option<u32> {
    assert!(rt; i < model.equations() && j < model.unknowns());
    Some(model.constant(i, j)?.value())
}

fn assert_names(rt: &impl Abort, model: &Mixed<Res>, place: usize, equation: &str, unknown: &str) {
    assert!(rt; place < model.equations() && place < model.unknowns());
    assert_eq!(rt; model.equation_name(place), equation);
    assert_eq!(rt; model.unknown_name(place), unknown);
}

fn assert_places(rt: &impl Abort, model: &Mixed<Res>, places: &[Place]) {
    for (i, j, constant, symbol) in places {
        assert_eq!(rt; constant_of(rt, model, *i, *j), *constant, "{i}, {j}");
        assert!(rt; *i < model.equations() && *j < model.unknowns());
        assert_eq!(rt; model.symbol(*i, *j), *symbol, "{i}, {j}");
    }
}

#[test]
fn made_models_have_these_entries(rt: HostRuntime) -> Result<(), Fail> {
    for (size, equation, unknown, places) in CASES {
        assert!(rt; 1 <= size && size <= SIZE_LIMIT);
        let model = made_model(rt.alloc(), size)?;
        assert_eq!(rt; (model.equations(), model.unknowns()), (size, size));
        assert_names(&rt, &model, 0, "e1", "x1");
        assert_names(&rt, &model, size - 1, equation, unknown);
        assert_places(&rt, &model, places);
    }
    Ok(())
}
