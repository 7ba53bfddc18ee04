//! What several tests use.
pub(crate) mod checks;
pub(crate) mod files;
pub(crate) mod map_rounds;
pub(crate) mod opening;
pub(crate) mod rounds;
