// Tests of the classes, on nets that are given as lists of moves.
#![tactic(auto)]

mod checks;
mod listed;

pub use listed::Listed;

#[cfg(test)]
mod tests;
