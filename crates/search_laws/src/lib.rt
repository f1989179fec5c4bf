//! Shortest walks, and the search that finds them place by place.
#![tactic(auto)]

ghost use Rattle.search_laws.specs.Laws.{ShortestWalksAreBare};
ghost use Rattle.search_laws.specs.Outside.{SearchesMayLeaveOutWhatWasReachedInVain};

/// A shortest walk has no shortcut, meets no place twice, and has one start and one end.
pub fn shortest_walks_are_bare()
    ensures { ShortestWalksAreBare }
{}

/// A search may leave out what other starts reached in vain: its walk is as short, and what it reaches in vain grows
/// that set.
pub fn searches_may_leave_out_what_was_reached_in_vain()
    ensures { SearchesMayLeaveOutWhatWasReachedInVain }
{}
