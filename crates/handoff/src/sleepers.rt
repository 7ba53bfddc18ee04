//! Threads that wait for the word.
ghost use Rattle.std.specs.Prelude.{◌<◌};

use crate::word::{HAS_REPLY, HAS_REQUEST, IS_CLOSED, WORD, WordChange};
use atomic_table::{Shared, TableRule};
use std::hint::spin_loop;
use std::sync::Wait;
use std::sync::atomic::{AtomicU64, Ordering};

// How often a thread looks at the word before it sleeps. A look takes 5 ns on a Xeon of 2.5 GHz: so
// a client looks for 5 µs, and a server for 10 µs. Where there are more threads than processors,
// longer looks keep others from their work. A sleep and its wake cost each thread a system call.
const CLIENT_LOOKS: u32 = 1000;

const SERVER_LOOKS: u32 = 2000;

/// Threads that wait until the word is one of two, and how many of them are about to sleep, or
/// asleep.
///
/// Who sleeps is counted before the word is looked at for the last time. Who wakes reads the count
/// behind a change of its own, as the type of `are_none` asks. So either the count shows the
/// sleeper, or the sleeper sees the change and does not sleep.
#[derive(Drop)]
pub(crate) struct Sleepers {
    count: AtomicU64,
    looks: u32,
    until: [u64; 2],
}

impl Sleepers {
    /// Servers wait for a request, or until the handoff is closed.
    pub(crate) fn servers() -> Sleepers {
        Sleepers {
            count: AtomicU64::new(0),
            looks: SERVER_LOOKS,
            until: [HAS_REQUEST, IS_CLOSED],
        }
    }

    /// A client waits for a reply.
    pub(crate) fn clients() -> Sleepers {
        Sleepers {
            count: AtomicU64::new(0),
            looks: CLIENT_LOOKS,
            until: [HAS_REPLY, HAS_REPLY],
        }
    }

    /// Whether nobody sleeps who could have missed this change.
    pub(crate) fn are_none(&self, _change: &WordChange) -> bool {
        self.count.load(Ordering::SeqCst) == 0
    }

    /// Looks at the word for some time, and then sleeps. It may return for no reason.
    pub(crate) fn wait<C, V, K, P: TableRule<C, V, K>, T: Wait>(
        &self,
        rt: &T,
        shared: &Shared<C, V, K, P>,
    )
        requires { 8 < shared.now.table_id.words }
    {
        for _ in 0..self.looks {
            if self.is_awaited(shared.peek(WORD)) {
                return;
            }
            spin_loop();
        }
        self.count.fetch_add(1, Ordering::SeqCst);
        let word = shared.peek(WORD);
        if !self.is_awaited(word) {
            shared.park(rt, WORD, (word % (1 << 32)) as u32);
        }
        self.count.fetch_sub(1, Ordering::SeqCst);
    }

    // Whether the word is one of the two.
    fn is_awaited(&self, word: u64) -> bool {
        word == self.until[0] || word == self.until[1]
    }
}
