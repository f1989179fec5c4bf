//! A generator of numbers that look drawn at random.

ghost use Rattle.std.specs.Prelude.{◌≡◌};
ghost use Rattle.made_models.specs.Draws.{next};
ghost use Rattle.made_models.specs.MadeModels.{IsSize};

use std::marker::Model;

// The generator: 48271 times the number before, modulo 2^31 - 1 (Park, Miller and Stockmeyer 1993).
const MULTIPLIER: u64 = 48_271;

const MODULUS: u64 = 2_147_483_647;

// The last number that was drawn, or the first one where none was.
#[derive(Drop)]
pub(crate) struct Draws {
    last: u64,
}

impl Model for Draws {
    ghost use Rattle.std.specs.Prelude.{ℕ, ◌<◌};

    ghost Value = { ℕ };

    ghost view = { λ d. d.last };

    ghost invariant = { λ d. d.last < 2147483647 };
}

impl Draws {
    // The generator that starts at the number of a size.
    pub(crate) fn new(size: usize) -> Draws
        requires { IsSize size }
        ensures { result ≡ size }
    {
        Draws { last: size as u64 }
    }

    // The next number.
    pub(crate) fn draw(&mut self) -> u64
        ensures drawn { result ≡ self.new }
        ensures next { self.new ≡ next self.old }
    {
        self.last = self.last * MULTIPLIER % MODULUS;
        self.last
    }
}
