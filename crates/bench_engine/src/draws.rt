//! Equations that are drawn at random.

ghost use Rattle.std.specs.Prelude.{◌≡◌, ◌≤◌, ◌<◌};

use std::alloc::{AllocError, Global};

/// Which of its places an equation gives a constant, and which a symbol.
#[derive(Clone, Copy, PartialEq, Eq)]
pub enum Family {
    Symbols,
    Constants,
    Mixed,
}

impl Family {
    pub(crate) fn named(name: &str) -> Option<Family> {
        match name {
            "symbols" => Some(Family::Symbols),
            "constants" => Some(Family::Constants),
            "mixed" => Some(Family::Mixed),
            _ => None,
        }
    }

    pub(crate) fn name(self) -> &'static str {
        match self {
            Family::Symbols => "symbols",
            Family::Constants => "constants",
            Family::Mixed => "mixed",
        }
    }

    // The constant that the drawn number stands for, or none where it stands for a symbol.
    fn constant(self, drawn: u64) -> Option<u64> {
        let constant = drawn / 4 % 65_520 + 1;
        match self {
            Family::Symbols => None,
            Family::Constants => Some(constant),
            Family::Mixed => { if drawn % 4 < 2 { Some(constant) } else { None } }
        }
    }
}

/// Numbers drawn one after the other, each from the one before.
#[derive(Drop)]
pub struct Draws {
    last: u64,
}

impl Draws {
    pub(crate) fn new(first: u64) -> Draws {
        Draws { last: first }
    }

    fn draw(&mut self) -> u64 {
        self.last = self.last % 2_147_483_647 * 48_271 % 2_147_483_647;
        self.last
    }
}

/// A place of an equation: its column, and its constant where it has no symbol.
#[derive(Clone, Copy)]
pub struct Place {
    pub column: usize,
    pub constant: Option<u64>,
}

/// The places of an equation over so many unknowns: up to three.
pub(crate) fn equation(
    alloc: Global,
    draws: &mut Draws,
    family: Family,
    unknowns: usize,
) -> Result<Vec<Place>, AllocError>
    requires { 1 ≤ unknowns }
{
    let mut places: Vec<Place> = Vec::with_capacity(alloc, 3)?;
    for _place in 0..3 {
        let column = draws.draw() as usize % unknowns;
        let drawn = draws.draw();
        if places.iter().all(|place| place.column != column) {
            places.push(Place {
                column,
                constant: family.constant(drawn),
            })?;
        }
    }
    Ok(places)
}
