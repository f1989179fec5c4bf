//! Places of which some lead to others, and the arcs between them, told by number.

ghost use Rattle.std.specs.Prelude.{◌≡◌, ◌<◌, ℕ, ◌+◌, Bool, nat_eq, true};

use exchange_graph::Arcs;
use std::cell::Cell;

/// Places of which it can be asked whether one leads to another.
pub trait Shape {
    ghost count: { Self → ℕ };

    ghost leads_to: { Self → ℕ → ℕ → Bool };

    /// How many places there are.
    fn places(&self) -> usize
        ensures { result ≡ count self.now };

    /// Whether x leads to y.
    fn leads(&self, x: usize, y: usize) -> bool
        requires x { x < count self.now }
        requires y { y < count self.now }
        ensures { result ≡ leads_to self.now x y };
}

/// The arcs of a shape: to go over those of a place it asks for the arc to each place, one after another. Counts how
/// often it asks, and how often no more arcs are left, which ends a look at a place.
#[derive(Drop)]
pub struct ByNumber<'a, S: Shape> {
    pub shape: &'a S,
    asks: Cell<usize>,
    looks: Cell<usize>,
}

impl<'a, S: Shape> ByNumber<'a, S> {
    /// The arcs of a shape, of which none was asked for.
    pub fn new(shape: &'a S) -> Self
        ensures { result.shape.now ≡ shape.now }
    {
        ByNumber {
            shape,
            asks: Cell::new(0),
            looks: Cell::new(0),
        }
    }

    /// How often an arc was asked for.
    pub(crate) fn asks(&self) -> usize {
        self.asks.get()
    }

    /// How often no more arcs of a place were left.
    pub(crate) fn looks(&self) -> usize {
        self.looks.get()
    }
}

impl<'a, S: Shape> Arcs for ByNumber<'a, S> {
    ghost places = { λ a. S.count a.shape.now };

    ghost leads = { λ a. S.leads_to a.shape.now };

    ghost turn = { λ _ _ y. y };

    fn arc(&self, x: usize, y: usize) -> bool {
        self.asks.set(self.asks.get().saturating_add(1));
        self.shape.leads(x, y)
    }

    fn next_arc(&self, x: usize, from: usize) -> Option<(usize, usize)> {
        for y in from..self.shape.places() {
            if self.arc(x, y) {
                return Some((y, y + 1));
            }
        }
        self.looks.set(self.looks.get().saturating_add(1));
        None
    }
}

/// Each place leads to the next one.
#[derive(Drop)]
pub struct Path {
    pub places: usize,
}

impl Shape for Path {
    ghost count = { λ s. s.places };

    ghost leads_to = { λ _ x y. nat_eq y (x + 1) };

    fn places(&self) -> usize {
        self.places
    }

    fn leads(&self, x: usize, y: usize) -> bool {
        x < usize::MAX && y == x + 1
    }
}

/// Each place leads to each.
#[derive(Drop)]
pub struct Complete {
    pub places: usize,
}

impl Shape for Complete {
    ghost count = { λ s. s.places };

    ghost leads_to = { λ _ _ _. true };

    fn places(&self) -> usize {
        self.places
    }

    fn leads(&self, _x: usize, _y: usize) -> bool {
        true
    }
}
