//! The simulated ring, and a backend whose ring executes another's I/Os.

mod backends;
mod random_rings;
mod reads;
mod rings;
mod sim_ring;
