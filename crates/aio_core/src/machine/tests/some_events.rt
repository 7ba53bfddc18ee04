//! Events by numbers.

use aio_word::{Class, Event, State, Step, Word};

fn some_class(number: u64) -> Class {
    match number % 4 {
        0 => Class::Unended,
        1 => Class::Whole,
        2 => Class::Short,
        _ => Class::Failed,
    }
}

fn some_step(number: u64) -> Step {
    match number % 10 {
        0 => Step::HandOut,
        1 => Step::Release,
        2 => Step::Define,
        3 => Step::Stage,
        4 => Step::Submit,
        5 => Step::Claim,
        6 => Step::Io(some_class(number / 10)),
        7 => Step::Shared,
        8 => Step::Local,
        _ => Step::Reclaim,
    }
}

/// The step that leads on from the word.
fn next_step(word: &Word, number: u64) -> Step {
    match word.state {
        State::Idle => Step::HandOut,
        State::HandedOut => Step::Define,
        State::Defined => Step::Stage,
        State::Staged => Step::Submit,
        State::Submitted => {
            if word.claimed {
                Step::Io(some_class(number))
            } else {
                Step::Claim
            }
        }
        State::CompletedIo => Step::Shared,
        State::CompletedShared => Step::Local,
        State::CompletedLocal => Step::Reclaim,
    }
}

/// Some event, by the number: of four handles and one out of range, mostly by its owner or a
/// runner, mostly of the generation of the word, and mostly with a step that leads on from it.
pub(crate) fn some_event(number: u64, words: &[Word]) -> Event {
    let handle = number / 7 % 5;
    let actor = match number / 40 % 8 {
        0 => (number / 400 % 5) as u32,
        1 | 2 | 3 => 2,
        _ => (handle / 2) as u32,
    };
    let (generation, step) = match words.get(handle as usize) {
        Some(word) => {
            let generation = if number / 2000 % 16 == 0 {
                number / 40000 % 3
            } else {
                word.generation
            };
            let choice = number / 50000;
            let step = if choice % 4 == 0 {
                some_step(choice / 4)
            } else {
                next_step(word, choice / 4)
            };
            (generation, step)
        }
        None => (0, some_step(number / 50000)),
    };
    Event {
        actor,
        handle: handle as u32,
        generation,
        step,
    }
}
