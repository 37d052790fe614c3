// What any run of calls shows of an arena, by a ledger of the calls and their answers. Statements and proofs alone:
// this crate has no code.
#![tactic(auto)]
