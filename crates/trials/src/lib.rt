// Examples at the limits.
//
//   runs   making runs, and values in them
//   tests  reading and printing
#![tactic(auto)]

#[cfg(test)]
mod runs;
#[cfg(test)]
mod tests;
