//! Numbers that reach the structural rank and begin as the first list does: what they tell of the next place.
ghost use Rattle.value_list_laws.specs.WitnessLaws.{ChangedWitnessesShowAOne, KeptInversesShowALowering};
ghost use Rattle.value_list_laws.specs.WitnessLaws.{KeptInversesTellOfEachPlace, OnesOfAWitnessAreOnes};
ghost use Rattle.value_list_laws.specs.WitnessLaws.{PathsShowThatOneKeepsTheRank, RunsOfOnesAreOnes};
ghost use Rattle.value_list_laws.specs.WitnessLaws.{WitnessesGoOnWithTwo};

/// Where a witness has 1 at the next place, the first list has 1 there.
pub fn ones_of_a_witness_are_ones()
    ensures { OnesOfAWitnessAreOnes }
{}

/// Where a witness may be changed to 1 at the next place, the first list has 1 there.
pub fn changed_witnesses_show_a_one()
    ensures { ChangedWitnessesShowAOne }
{}

/// Where a witness has 1 at each place of a run, the first list has 1 at each.
pub fn runs_of_ones_are_ones()
    ensures { RunsOfOnesAreOnes }
{}

/// Where the first list has 2, each witness becomes one for the next place when it is changed to 2.
pub fn witnesses_go_on_with_two()
    ensures { WitnessesGoOnWithTwo }
{}

/// A kept inverse shows that 1 at a place lowers the rank.
pub fn kept_inverses_show_a_lowering()
    ensures { KeptInversesShowALowering }
{}

/// A path through other symbols, as a kept inverse leads, shows that 1 keeps the rank.
pub fn paths_show_that_one_keeps_the_rank()
    ensures { PathsShowThatOneKeepsTheRank }
{}

/// Where 1 makes the kept values singular, the inverse shows that 1 lowers the rank, or a path that it keeps it.
pub fn kept_inverses_tell_of_each_place()
    ensures { KeptInversesTellOfEachPlace }
{}
