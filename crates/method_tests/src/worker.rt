//! Workers over tables of reads, by an executor that answers each read whole.

mod alone;
mod batches;
mod reads;
mod sleepers;
mod stale_entries;
mod three;
mod woken_together;
