//! The values of the symbols: which changes keep a rank (Murota, chapter 4).
ghost use Rattle.mixed_layering_laws.specs.LayeringLaws.{AuxiliaryValuesMayBeMinusOne, OneSymbolMayBeOneOrTwo};
ghost use Rattle.mixed_layering_laws.specs.LayeringLaws.{OnesAndTwosReachTheLayeredRank, OnesAndTwosReachTheRank};
ghost use Rattle.mixed_layering_laws.specs.LayeringLaws.{ScaledRowsOfSymbolsKeepTheRank};

/// T rows multiplied by numbers that are not zero keep the rank of every column set.
pub fn scaled_rows_of_symbols_keep_the_rank()
    ensures { ScaledRowsOfSymbolsKeepTheRank }
{}

/// Values that are not zero at the auxiliary places may be scaled row by row, so that they are -1 there.
pub fn auxiliary_values_may_be_minus_one()
    ensures { AuxiliaryValuesMayBeMinusOne }
{}

/// Whatever number one symbol has, with 1 or with 2 in its place the rank is no smaller.
pub fn one_symbol_may_be_one_or_two()
    ensures { OneSymbolMayBeOneOrTwo }
{}

/// The values 1 and 2 alone reach the structural rank of a model.
pub fn ones_and_twos_reach_the_rank()
    ensures { OnesAndTwosReachTheRank }
{}

/// The values 1 and 2 alone reach the structural rank of a layered matrix.
pub fn ones_and_twos_reach_the_layered_rank()
    ensures { OnesAndTwosReachTheLayeredRank }
{}
