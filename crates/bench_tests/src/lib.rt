// The bench on worked examples: nets of files, of rings, and joined of both.
#![tactic(auto)]

#[cfg(test)]
mod tests;
