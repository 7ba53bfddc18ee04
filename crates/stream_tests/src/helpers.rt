//! What the tests share.

pub(crate) mod answers;
pub(crate) mod beside;
pub(crate) mod cases;
pub(crate) mod counting;
pub(crate) mod listed_streams;
pub(crate) mod numbers;
pub(crate) mod other_backend;
pub(crate) mod outcomes;
pub(crate) mod rows;
pub(crate) mod streams;
