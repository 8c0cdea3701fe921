use proc_book::Procs;
use virt_ids::Ids;

/// Processes by their real numbers, and the pairs of these with the virtual ones.
#[derive(Drop)]
pub struct Numbered {
    pub procs: Procs,
    pub ids: Ids,
}
