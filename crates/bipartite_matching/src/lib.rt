//! Matchings of the rows of a pattern with its columns (Murota, chapter 2: matchings in bipartite graphs).
#![tactic(auto)]

mod matching;

pub use matching::Match;
pub use out_of_memory::NoMemory;
