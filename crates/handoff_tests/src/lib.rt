//! Tests of the crate `handoff`. They are callers like any other, so it is not proved once more
//! beneath them.
#![tactic(auto)]

#[cfg(test)]
mod alone;
#[cfg(test)]
mod doubling;
#[cfg(test)]
mod sleepers;
#[cfg(test)]
mod turns;
