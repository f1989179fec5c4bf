//! A model with a symbol replaced by a constant: what becomes of its structural rank.
ghost use Rattle.value_list_laws.specs.FixingLaws.{AtMostOneNumberLowersTheRank, FewerFixedSymbolsKeepTheRank};
ghost use Rattle.value_list_laws.specs.FixingLaws.{FixedRankIsTheRankWith, FixedSymbolsTakeAtMostOne};
ghost use Rattle.value_list_laws.specs.FixingLaws.{NumbersPutFixSymbols, OneOrTwoKeepsTheRank, PlacesAreFixedInOrder};
ghost use Rattle.value_list_laws.specs.FixingLaws.{SymbolsAreFixedOneByOne};

/// The rank of a model with fixed symbols is the greatest rank of the values that have these numbers there.
pub fn fixed_rank_is_the_rank_with()
    ensures { FixedRankIsTheRankWith }
{}

/// To fix one more symbol of a model with fixed symbols is to fix them all at once.
pub fn symbols_are_fixed_one_by_one()
    ensures { SymbolsAreFixedOneByOne }
{}

/// One fixed symbol keeps the rank, or takes one.
pub fn fixed_symbols_take_at_most_one()
    ensures { FixedSymbolsTakeAtMostOne }
{}

/// 1 or 2 in place of a symbol keeps the rank.
pub fn one_or_two_keeps_the_rank()
    ensures { OneOrTwoKeepsTheRank }
{}

/// At most one number in place of a symbol lowers the rank.
pub fn at_most_one_number_lowers_the_rank()
    ensures { AtMostOneNumberLowersTheRank }
{}

/// Where fixed symbols keep the rank, fewer of them do.
pub fn fewer_fixed_symbols_keep_the_rank()
    ensures { FewerFixedSymbolsKeepTheRank }
{}

/// A number put in place of a symbol fixes it.
pub fn numbers_put_fix_symbols()
    ensures { NumbersPutFixSymbols }
{}

/// Symbols fixed in order are fixed one by one.
pub fn places_are_fixed_in_order()
    ensures { PlacesAreFixedInOrder }
{}
