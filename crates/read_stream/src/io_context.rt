//! What a stream reads with.
use aio_batch::Method;
use aio_callback::ReadIo;
use aio_handle::{Actor, Execute, Table};
use page_check::World;

/// The table and the actor whose I/Os a call makes, the method that submits them, and the executor
/// of those that the actor makes itself.
#[derive(Drop)]
pub struct IoContext<'t, 'a, 'm, 'e, W: World, M: Method<ReadIo, W>, E: Execute<ReadIo, W>> {
    pub table: &'t Table<ReadIo, W>,
    pub actor: &'a mut Actor<ReadIo, W>,
    pub method: &'m mut M,
    pub runner: &'e mut E,
}
