ghost use Rattle.std.specs.Prelude.{◌≡◌};
ghost use Rattle.std.specs.Option.{option_copied};
ghost use Rattle.wire_net.specs.Ends as words;
ghost use Rattle.wire_net.specs.Noted as noted;

use sys_abi::{ConnId, RealPid};

/// What a step of an agent did.
#[derive(Clone, Copy, Debug, PartialEq, Eq)]
pub enum Stepped {
    /// It moved bytes.
    Moved,
    /// It has no work left.
    Finished,
    /// It has work left and can move nothing yet.
    Again,
}

impl Stepped {
    /// What a step answers, by whether work is left for the agent and whether it moved bytes.
    pub fn of(has_work: bool, moved: bool) -> Stepped
        ensures { result ≡ noted.answer_of has_work moved }
    {
        if !has_work {
            Stepped::Finished
        } else if moved {
            Stepped::Moved
        } else {
            Stepped::Again
        }
    }
}

/// An end of a channel, and the process that acts for it in a checkpoint, if one does.
#[derive(Clone, Copy)]
pub struct AgentEnd {
    pub conn: ConnId,
    pub side: u8,
    pub agent: Option<RealPid>,
}

impl AgentEnd {
    /// Whether it is the end of that side of the channel.
    fn is_at(&self, conn: ConnId, side: u8) -> bool
        ensures { result ≡ words.is_end_at conn side self.now }
    {
        self.conn.pid.0 == conn.pid.0 && self.conn.num == conn.num && self.side == side
    }
}

fn end_of(ends: &[AgentEnd], conn: ConnId, side: u8) -> Option<&AgentEnd>
    ensures { option_copied result ≡ words.end_of ends.now conn side }
{
    ends.iter().find(|end| end.is_at(conn, side))
}

/// The process that acts for an end of a channel, by a list of ends: none where the end is not listed, or
/// nobody does.
pub fn agent_of(ends: &[AgentEnd], conn: ConnId, side: u8) -> Option<RealPid>
    ensures { result ≡ words.agent_of ends.now conn side }
{
    let end = end_of(ends, conn, side)?;
    end.agent
}

/// Whether the agent that is named, if one is, is that process.
pub fn is_agent(named: Option<RealPid>, p: RealPid) -> bool
    ensures { result ≡ noted.is_agent p named }
{
    match named {
        None => false,
        Some(agent) => agent.node == p.node && agent.pid == p.pid,
    }
}
