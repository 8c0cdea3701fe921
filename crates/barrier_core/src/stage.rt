ghost use Rattle.std.specs.Prelude.{◌≡◌};
ghost use Rattle.barrier_core.specs.Stages as stages;

/// A stage of a checkpoint that each process reaches, in order.
#[derive(Clone, Copy, Debug, PartialEq, Eq)]
pub enum Stage {
    /// Its threads run no more.
    Suspended,
    /// It has voted for a leader of each description that it holds.
    Elected,
    /// It has drained the channels whose ends it acts for.
    Drained,
    /// The writing of the set is over, done or refused.
    Written,
    /// It has filled the channels again whose ends it acts for.
    Refilled,
}

/// What a process is told, in order: to go on to the next stage, and at last to run again.
#[derive(Clone, Copy, Debug, PartialEq, Eq)]
pub enum Message {
    Suspend,
    Elect,
    Drain,
    Write,
    Refill,
    Resume,
}

/// The stage's place, from 1.
pub(crate) fn order(stage: Stage) -> u32
    ensures { result ≡ stages.order stage }
{
    match stage {
        Stage::Suspended => 1,
        Stage::Elected => 2,
        Stage::Drained => 3,
        Stage::Written => 4,
        Stage::Refilled => 5,
    }
}

/// How many stages are reached.
pub(crate) fn depth(reached: Option<Stage>) -> u32
    ensures { result ≡ stages.depth reached }
{
    match reached {
        None => 0,
        Some(stage) => order(stage),
    }
}

/// The stage after this one, or the first.
pub(crate) fn next_stage(reached: Option<Stage>) -> Option<Stage>
    ensures { result ≡ stages.next_stage reached }
{
    match reached {
        None => Some(Stage::Suspended),
        Some(Stage::Suspended) => Some(Stage::Elected),
        Some(Stage::Elected) => Some(Stage::Drained),
        Some(Stage::Drained) => Some(Stage::Written),
        Some(Stage::Written) => Some(Stage::Refilled),
        Some(Stage::Refilled) => None,
    }
}

/// The message after this one, or the first.
pub(crate) fn next_message(taken: Option<Message>) -> Option<Message>
    ensures { result ≡ stages.next_message taken }
{
    match taken {
        None => Some(Message::Suspend),
        Some(Message::Suspend) => Some(Message::Elect),
        Some(Message::Elect) => Some(Message::Drain),
        Some(Message::Drain) => Some(Message::Write),
        Some(Message::Write) => Some(Message::Refill),
        Some(Message::Refill) => Some(Message::Resume),
        Some(Message::Resume) => None,
    }
}

/// The stage that is released before the message is sent, if there is one.
pub(crate) fn stage_before(message: Message) -> Option<Stage>
    ensures { result ≡ stages.stage_before message }
{
    match message {
        Message::Suspend => None,
        Message::Elect => Some(Stage::Suspended),
        Message::Drain => Some(Stage::Elected),
        Message::Write => Some(Stage::Drained),
        Message::Refill => Some(Stage::Written),
        Message::Resume => Some(Stage::Refilled),
    }
}

/// Whether it is this stage that was found.
pub(crate) fn is_stage(stage: Stage, found: Option<Stage>) -> bool
    ensures { result ≡ stages.is_stage stage found }
{
    match found {
        None => false,
        Some(other) => order(other) == order(stage),
    }
}
