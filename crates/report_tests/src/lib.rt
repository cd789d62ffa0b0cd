// Reports of worked files, with their texts worked out by hand.
#![tactic(auto)]

#[cfg(test)]
mod tests;
