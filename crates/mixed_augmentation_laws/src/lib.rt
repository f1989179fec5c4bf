//! How a pair grows along a shortest walk from a free column to an end (Murota, Matrices and Matroids for Systems
//! Analysis, chapter 2, independent matching). No code.
#![tactic(auto)]

ghost use Rattle.mixed_augmentation_laws.specs.Laws.{EndsHaveAFreeRow, ShortestWalksAreRoutes, MovesBegin, MovesGoOn};
ghost use Rattle.mixed_augmentation_laws.specs.Laws.{MovesEndInALargerPair, RoutesHaveFewPivots};
ghost use Rattle.mixed_augmentation_laws.specs.SealedLaws.{SealedSetsHoldTheirRows, MovesLeaveSealedSets};
ghost use Rattle.mixed_augmentation_laws.specs.SealedLaws.{RoutesMissSealedSets, RoutesLeaveSealedSets};
ghost use Rattle.mixed_augmentation_laws.specs.SealedLaws.{SealedSetsStaySealed, ShortestWalksFromSomeAreRoutes};

/// A column is an end exactly where it may take a row that no column has.
pub fn ends_have_a_free_row()
    ensures { EndsHaveAFreeRow }
{}

/// On a shortest walk from a free column to an end each column may take the row of the next one, the last one a
/// free row, and no earlier column has an entry in a Q row that is taken.
pub fn shortest_walks_are_routes()
    ensures { ShortestWalksAreRoutes }
{}

/// Before the first move nothing has changed.
pub fn moves_begin()
    ensures { MovesBegin }
{}

/// The columns move from the last one to the first: the next one may always take its row.
pub fn moves_go_on()
    ensures { MovesGoOn }
{}

/// After the last move the base and the matched columns are a pair with one column more.
pub fn moves_end_in_a_larger_pair()
    ensures { MovesEndInALargerPair }
{}

/// A walk takes at most as many pivots as there are base columns, and one more.
pub fn routes_have_few_pivots()
    ensures { RoutesHaveFewPivots }
{}

/// A column set is sealed exactly where each row that its columns may take is that of one of them.
pub fn sealed_sets_hold_their_rows()
    ensures { SealedSetsHoldTheirRows }
{}

/// A column outside that takes a row of no column inside leaves the columns of a sealed set as they are.
pub fn moves_leave_sealed_sets()
    ensures { MovesLeaveSealedSets }
{}

/// No column of a walk that ends at an end is in a sealed set.
pub fn routes_miss_sealed_sets()
    ensures { RoutesMissSealedSets }
{}

/// An augmentation leaves the columns of every sealed set as they are.
pub fn routes_leave_sealed_sets()
    ensures { RoutesLeaveSealedSets }
{}

/// So they are sealed after it, with the same free columns, and what was reached from these.
pub fn sealed_sets_stay_sealed()
    ensures { SealedSetsStaySealed }
{}

/// A walk that is shortest from some free columns alone makes a route too.
pub fn shortest_walks_from_some_are_routes()
    ensures { ShortestWalksFromSomeAreRoutes }
{}
