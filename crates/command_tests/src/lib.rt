//! Tests of `command_line`: which words are a command, and what they ask for. No code besides.
//!
//! A row is a line of words, with what they ask for. No file is opened.
#![tactic(auto)]

#[cfg(test)]
mod check_words;
#[cfg(test)]
mod map_words;
#[cfg(test)]
mod refused_words;
#[cfg(test)]
mod words;
