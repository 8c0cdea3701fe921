use drive::Wrapped;
use guest_proc::Guest;
use image_store::Store;
use sys_abi::VPid;
use trace_log::Schedule;
use views::list_of::ListOf;

/// When a run asks for checkpoints, and the store to which their sets go.
#[derive(Drop)]
pub struct Checkpoints {
    pub schedule: Schedule,
    pub store: Option<Store>,
}

/// A run at its start: the system, the own part of each process that lives in it, under its number, and the
/// checkpoints.
#[derive(Drop)]
pub struct Start {
    pub system: Wrapped,
    pub guests: ListOf<(VPid, Guest)>,
    pub checkpoints: Checkpoints,
}
