//! Tests of two encodings: the word of a handle, and the result of an I/O.
#![tactic(auto)]

#[cfg(test)]
mod results;
#[cfg(test)]
mod words;
