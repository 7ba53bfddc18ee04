//! What each step does to a word, and which mark it leaves.

ghost use Rattle.std.specs.Prelude.{◌≡◌, ◌<◌, ◌^◌};
ghost use Rattle.aio_word.specs.Events.{word_after, kind_of_step, make_word};

use aio_word::{Class, Kind, LAST_GENERATION, State, Step, Word};

/// The word after the step, where the state before has the step.
pub(crate) fn after(word: &Word, step: Step) -> Option<Word>
    requires { word.now.generation < 2 ^ 58 }
    ensures { result ≡ word_after word.now step }
{
    let Word {
        state,
        claimed,
        class,
        generation,
    } = *word;
    match (state, step) {
        (State::Idle, Step::HandOut) if generation < LAST_GENERATION => {
            Some(word_in(State::HandedOut, false, Class::Unended, generation))
        }
        (State::HandedOut, Step::Release) => {
            Some(word_in(State::Idle, false, Class::Unended, generation))
        }
        (State::HandedOut, Step::Define) => {
            Some(word_in(State::Defined, false, Class::Unended, generation))
        }
        (State::Defined, Step::Stage) => {
            Some(word_in(State::Staged, false, Class::Unended, generation))
        }
        (State::Staged, Step::Submit) => {
            Some(word_in(State::Submitted, false, Class::Unended, generation))
        }
        (State::Submitted, Step::Claim) if !claimed => {
            Some(word_in(State::Submitted, true, Class::Unended, generation))
        }
        (State::Submitted, Step::Io(class)) if claimed && !matches!(class, Class::Unended) => {
            Some(word_in(State::CompletedIo, true, class, generation))
        }
        (State::CompletedIo, Step::Shared) => {
            Some(word_in(State::CompletedShared, false, class, generation))
        }
        (State::CompletedShared, Step::Local) => {
            Some(word_in(State::CompletedLocal, false, class, generation))
        }
        (State::CompletedLocal, Step::Reclaim) => {
            Some(word_in(State::Idle, false, Class::Unended, generation + 1))
        }
        _ => None,
    }
}

fn word_in(state: State, claimed: bool, class: Class, generation: u64) -> Word
    ensures { result ≡ make_word state claimed class generation }
{
    Word {
        state,
        claimed,
        class,
        generation,
    }
}

/// The kind of the mark that the step leaves, where the word before has that class.
pub(crate) fn left_by(class: Class, step: Step) -> Option<Kind>
    ensures { result ≡ kind_of_step class step }
{
    match step {
        Step::HandOut | Step::Release => None,
        Step::Define => Some(Kind::Defined),
        Step::Stage => Some(Kind::Staged),
        Step::Submit => Some(Kind::Submitted),
        Step::Claim => Some(Kind::Claimed),
        Step::Io(ended) => Some(Kind::Io(ended)),
        Step::Shared => Some(Kind::Shared),
        Step::Local => Some(Kind::Local(class)),
        Step::Reclaim => Some(Kind::Reclaimed),
    }
}
