ghost use Rattle.std.specs.Prelude.{◌≡◌, ◌&&◌, not};
ghost use Rattle.barrier_core.specs.Members as members;
ghost use Rattle.barrier_core.specs.Stages as stages;

use crate::stage::{Message, Stage, depth, is_stage, next_message, order, stage_before};

/// How far a member of a request has come.
#[derive(Clone, Copy)]
pub struct Member {
    /// The greatest stage that it has reached.
    pub reached: Option<Stage>,
    /// The last message that it has taken.
    pub taken: Option<Message>,
}

impl Member {
    /// A member that has reached no stage and taken no message.
    pub fn fresh() -> Member
        ensures { result ≡ members.fresh }
    {
        Member {
            reached: None,
            taken: None,
        }
    }

    pub fn has_reached(&self, stage: Stage) -> bool
        ensures { result ≡ members.has_reached stage self.now }
    {
        order(stage) <= depth(self.reached)
    }

    /// Whether it is still to reach the stage, and that is the one waited for.
    pub fn lacks(&self, stage: Stage, waited: Option<Stage>) -> bool
        ensures { result ≡ (stages.is_stage stage waited && not (members.has_reached stage self.now)) }
    {
        if !is_stage(stage, waited) {
            return false;
        }
        !self.has_reached(stage)
    }

    /// The next message, where the stage before it is released.
    pub fn due(&self, released: Option<Stage>) -> Option<Message>
        ensures { result ≡ members.due_message released self.now }
    {
        let message = next_message(self.taken)?;
        if is_due(released, message) {
            Some(message)
        } else {
            None
        }
    }
}

fn is_due(released: Option<Stage>, message: Message) -> bool
    ensures { result ≡ members.is_due released message }
{
    depth(stage_before(message)) <= depth(released)
}
