// Record files on examples. The tests stand apart from the crate `records`, since a crate with tests is proved twice.
#![tactic(auto)]

#[cfg(test)]
mod tests;
