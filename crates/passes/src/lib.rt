// Passes over a sound arena: the searches for a block and for a free chunk that fits, and the counts of the report.
// None of them stores a word. Each asks that the words are sound, and no type says it of them: each call checks the
// arena just before it searches, and a struct that says so would be made anew there each time. Their loops follow links
// and sizes in the words, and count no index.
#![tactic(auto)]

pub mod fits;
pub mod places;
pub mod tally;
