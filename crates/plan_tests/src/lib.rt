//! Tests of what a read stream asks for next: the sources of blocks, and the plan of reads.
#![tactic(auto)]

#[cfg(test)]
mod plans;
#[cfg(test)]
mod sources;
