//! Where components stand while the blocks are listed.

ghost use Rattle.std.specs.Prelude.{◌↔◌, ℕ, ◌<◌, length, IsTrue};
ghost use Rattle.minimiser_lattice.specs.Standings.{IsWaiting, standing_in};

/// Where a component stands while the blocks are listed.
#[derive(Clone, Copy, PartialEq, Eq)]
pub enum Standing {
    /// In a tail, so it is of no block.
    Tail,
    /// In the middle, and it waits to be listed.
    Waiting,
    /// In the middle, and it has its block.
    Listed,
}

/// Whether component k waits.
pub fn is_waiting(standing: &[Standing], k: usize) -> bool
    requires { k < length standing.now }
    ensures { IsTrue result ↔ IsWaiting (standing_in standing.now) k }
{
    standing[k] == Standing::Waiting
}
