// A trial: one call, by its number, on any arena, and all that came of it in numbers and words.
#![tactic(auto)]

mod calls;
mod parts;
pub mod replies;
