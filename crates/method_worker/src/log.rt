//! What contracts keep of a seat.
use aio_word::WaitRef;
use std::collections::LinkedList;

/// What a seat has pushed and popped, and its parts of the right to know the whole. No value of it
/// is made.
pub struct Log {
    pub parts: u64,
    pub pushes: LinkedList<WaitRef>,
    pub pops: LinkedList<WaitRef>,
}

/// The numbers under which a seat has closed the queue, and the closing words that it has read. No
/// value of it is made.
pub struct Notes {
    pub closes: LinkedList<u64>,
    pub loads: LinkedList<u64>,
}
