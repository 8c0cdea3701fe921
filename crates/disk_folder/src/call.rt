ghost use Rattle.std.specs.Prelude.{◌≡◌};
ghost use Rattle.disk_folder.specs.History.{settles};

use crate::request::Request;

/// A call that was made.
#[derive(Drop)]
pub struct Call {
    pub request: Request,
    /// Whether it was done. Otherwise it failed.
    pub done: bool,
}

impl Call {
    /// Whether it is a sync that was done.
    pub fn settles(&self) -> bool
        ensures { result ≡ settles self.now }
    {
        matches!(self.request, Request::Sync) && self.done
    }
}
