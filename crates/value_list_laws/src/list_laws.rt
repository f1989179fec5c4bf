//! The first of the value lists that reach the structural rank.
ghost use Rattle.value_list_laws.specs.ListLaws.{AnswersGiveTheFirstList, GreedyListsAreTheFirst, RunsAreTriedAtOnce};
ghost use Rattle.value_list_laws.specs.ListLaws.{StepsKeepTheRank, ThereIsOneAnswer, ThereIsOneFirstList};
ghost use Rattle.value_list_laws.specs.ListLaws.{TwosShowTheFirstList};

/// One value list reaches the rank, and no list that comes before it does; another such list has the same values.
pub fn there_is_one_first_list()
    ensures { ThereIsOneFirstList }
{}

/// It is the greedy one: 1 at each place where that keeps the rank, the earlier places being fixed.
pub fn greedy_lists_are_the_first()
    ensures { GreedyListsAreTheFirst }
{}

/// A value list that reaches the rank is the first one if at each of its twos a 1 would lower the rank.
pub fn twos_show_the_first_list()
    ensures { TwosShowTheFirstList }
{}

/// With the first symbols fixed as in the first list the rank stays.
pub fn steps_keep_the_rank()
    ensures { StepsKeepTheRank }
{}

/// A run of the first list is of ones exactly where ones in all its places keep the rank.
pub fn runs_are_tried_at_once()
    ensures { RunsAreTriedAtOnce }
{}

/// As data the first list is one list of values.
pub fn there_is_one_answer()
    ensures { ThereIsOneAnswer }
{}

/// A list is the answer exactly where the values that it gives to the symbols are the first.
pub fn answers_give_the_first_list()
    ensures { AnswersGiveTheFirstList }
{}
