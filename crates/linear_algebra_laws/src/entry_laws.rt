//! A matrix with one entry changed.
ghost use Rattle.linear_algebra_laws.specs.EntryLaws.{OneOfTwoNeighboursKeepsIndependence};

/// Of two neighbouring values at a place, one keeps columns independent.
pub fn one_of_two_neighbours_keeps_independence()
    ensures { OneOfTwoNeighboursKeepsIndependence }
{}
