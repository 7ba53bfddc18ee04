//! What is listed: tests of `aioscan` by random requests, by maps, with tuples, of damaged and of
//! generated pages, under many settings; and what faults are told.
#![tactic(auto)]

#[cfg(test)]
mod checks;
#[cfg(test)]
mod generated_runs;
#[cfg(test)]
mod limits;
#[cfg(test)]
mod map_reads;
#[cfg(test)]
mod map_runs;
#[cfg(test)]
mod random_maps;
#[cfg(test)]
mod random_requests;
#[cfg(test)]
mod settings;
#[cfg(test)]
mod show_damaged;
#[cfg(test)]
mod tuples;
#[cfg(test)]
mod zero_damaged;
