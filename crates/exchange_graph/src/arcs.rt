//! Directed graphs, as the arcs between numbered places.

ghost use Rattle.std.specs.Prelude.{◌≡◌, ℕ, ◌<◌, Bool, IfSome, IfNone};
ghost use Rattle.exchange_graph.specs.Turns.{HaveHadTurns, HasNextTurn};

/// Arcs between places, which are the numbers below `places`. What a place leads to is told one place after another,
/// each in its turn.
pub trait Arcs {
    ghost places: { Self → ℕ };

    ghost leads: { Self → ℕ → ℕ → Bool };

    ghost turn: { Self → ℕ → ℕ → ℕ };

    /// Whether x leads to y.
    fn arc(&self, x: usize, y: usize) -> bool
        requires x { x < places self.now }
        requires y { y < places self.now }
        ensures { result ≡ leads self.now x y };

    /// The next place that x leads to, from turn `from` on, and the turn to go on with after it; or `None` where no
    /// place is left. All that x leads to is told in one pass: begin with turn 0.
    fn next_arc(&self, x: usize, from: usize) -> Option<(usize, usize)>
        requires x { x < places self.now }
        ensures none { IfNone result (HaveHadTurns (leads self.now x) (turn self.now x) (places self.now) from) }
        ensures some { IfSome result (λ (y, next). HasNextTurn (leads self.now x) (turn self.now x) (places self.now)
            from y next) };
}
