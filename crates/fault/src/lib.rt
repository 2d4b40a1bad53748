// The faults: what a call can refuse, and for what.
//
//   fault      faults and misreadings, the layers that they come from, and the texts that they are in
#![tactic(auto)]

mod fault;

pub use fault::{Fault, Layer, Misreading, Source};
