//! The word of a handle, and the number that it packs to.
use aio_word::{BadWord, Class, State, WaitRef, Word, done, pack, place, unpack};

fn word(state: State, claimed: bool, class: Class, generation: u64) -> Word {
    Word {
        state,
        claimed,
        class,
        generation,
    }
}

/// Words with the numbers that they pack to, and the marks that their generations have.
#[test]
fn packed_words(rt: HostRuntime) {
    for (number, want, marks) in [
        (0, word(State::Idle, false, Class::Unended, 0), 0),
        (1, word(State::HandedOut, false, Class::Unended, 0), 0),
        (2, word(State::Defined, false, Class::Unended, 0), 1),
        (67, word(State::Staged, false, Class::Unended, 1), 2),
        (388, word(State::Submitted, false, Class::Unended, 6), 3),
        (332, word(State::Submitted, true, Class::Unended, 5), 4),
        (109, word(State::CompletedIo, true, Class::Short, 1), 5),
        (342, word(State::CompletedShared, false, Class::Whole, 5), 6),
        (55, word(State::CompletedLocal, false, Class::Failed, 0), 7),
        (
            18446744073709551552,
            word(State::Idle, false, Class::Unended, 288230376151711743),
            0,
        ),
    ] {
        match unpack(number) {
            Ok(found) => {
                assert_eq!(rt; found, want, "at {number}");
                assert_eq!(rt; pack(&found), number);
                assert_eq!(rt; place(&found), marks, "at {number}");
            }
            Err(_) => assert!(rt; false, "no word at {number}"),
        }
    }
}

/// Idle and claimed; submitted with a class; completed without claim and class, and without the
/// claim alone; idle with a class.
#[test]
fn numbers_of_no_word(rt: HostRuntime) {
    for number in [8, 28, 5, 21, 336] {
        assert_eq!(rt; unpack(number), Err(BadWord(number)));
    }
}

/// A reference is done from its own CompletedShared on, and at every later generation.
#[test]
fn stale_reference(rt: HostRuntime) {
    let reference = WaitRef {
        handle: 0,
        generation: 5,
    };
    for (word, want) in [
        (word(State::CompletedShared, false, Class::Whole, 4), false),
        (word(State::Submitted, true, Class::Unended, 5), false),
        (word(State::CompletedIo, true, Class::Whole, 5), false),
        (word(State::CompletedShared, false, Class::Whole, 5), true),
        (word(State::CompletedLocal, false, Class::Failed, 5), true),
        (word(State::Idle, false, Class::Unended, 6), true),
    ] {
        assert_eq!(rt; done(&word, reference), want, "at {word:?}");
    }
}
