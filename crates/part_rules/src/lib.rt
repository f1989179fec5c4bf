//! Parts beside arcs, and how the rules that they keep are tested by the numbers of the parts, two searches and tables
//! of the blocks. Each law is the contract of a function that does nothing.
#![tactic(auto)]

ghost use Rattle.part_rules.specs.Laws.{NumbersTellArcs, MarksTellReasons, TablesTellLists};

/// Arcs lead down exactly where each leads where it may by the numbers of the parts.
pub fn numbers_tell_arcs()
    ensures { NumbersTellArcs }
{}

/// Where arcs lead down, two searches within the parts tell whether each place has its reason.
pub fn marks_tell_reasons()
    ensures { MarksTellReasons }
{}

/// Where the rules before are kept, tables of the blocks tell whether the lists and the listing are right.
pub fn tables_tell_lists()
    ensures { TablesTellLists }
{}
