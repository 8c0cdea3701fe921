// What is open in a kernel part.
use crate::kernels::{add_line, digits};
use plain_machine::PlainKernel;
use plain_tables::{ChannelEnd, ChannelKind, Direction, Listening, Object};
use std::alloc::{AllocError, Global};

/// Adds the channels, their directions and who listens.
pub fn add_channels(alloc: Global, text: &mut String, k: &PlainKernel) -> Result<(), AllocError> {
    for (conn, channel) in k.channels.iter() {
        let first = end_text(alloc, &channel.first)?;
        let second = end_text(alloc, &channel.second)?;
        let kind = kind_word(channel.kind);
        let line = format!(in alloc;
            "channel {} {}: {kind}, {first}, {second}",
            conn.pid.0, conn.num
        );
        add_line(text, line)?;
    }
    add_directions(alloc, text, k)?;
    add_listeners(alloc, text, k)
}

fn kind_word(kind: ChannelKind) -> &'static str {
    match kind {
        ChannelKind::Pair => "pair",
        ChannelKind::Internet => "internet",
        ChannelKind::Pipe => "pipe",
    }
}

fn end_text(alloc: Global, end: &ChannelEnd) -> Result<String, AllocError> {
    let open = if end.is_open { "open" } else { "closed" };
    match end.address {
        None => format!(in alloc; "{open}"),
        Some(address) => format!(in alloc; "{open} at {}:{}", address.host, address.port),
    }
}

fn add_directions(alloc: Global, text: &mut String, k: &PlainKernel) -> Result<(), AllocError> {
    for (from, direction) in k.directions.iter() {
        let state = direction_text(alloc, direction)?;
        let line = format!(in alloc;
            "direction {} {} from {}: {state}",
            from.conn.pid.0, from.conn.num, from.side
        );
        add_line(text, line)?;
    }
    Ok(())
}

fn direction_text(alloc: Global, direction: &Direction) -> Result<String, AllocError> {
    let left = digits(alloc, direction.left.as_slice())?;
    let ended = if direction.ended { ", ended" } else { "" };
    let unread = if direction.unread { ", unread" } else { "" };
    format!(in alloc; "{left}, {} arrived{ended}{unread}", direction.arrived)
}

fn add_listeners(alloc: Global, text: &mut String, k: &PlainKernel) -> Result<(), AllocError> {
    for (address, listening) in k.listeners.iter() {
        let waiting = waiting_text(alloc, listening)?;
        let line = format!(in alloc;
            "listener {}:{}: backlog {}{waiting}",
            address.host, address.port, listening.backlog
        );
        add_line(text, line)?;
    }
    Ok(())
}

fn waiting_text(alloc: Global, listening: &Listening) -> Result<String, AllocError> {
    let mut text = String::new(alloc);
    for conn in &listening.queue {
        text.push_str(format!(in alloc; ", {} {} waits", conn.pid.0, conn.num)?.as_str())?;
    }
    Ok(text)
}

pub fn add_descriptions(
    alloc: Global,
    text: &mut String,
    k: &PlainKernel,
) -> Result<(), AllocError> {
    for (id, description) in k.descriptions.iter() {
        let object = object_text(alloc, description.object)?;
        let line = format!(in alloc;
            "description {} {}: {object}, flags {:X}, owner {}",
            id.pid.0, id.num, description.flags, description.owner
        );
        add_line(text, line)?;
    }
    Ok(())
}

fn object_text(alloc: Global, object: Object) -> Result<String, AllocError> {
    match object {
        Object::Console => format!(in alloc; "console"),
        Object::File { number, offset } => format!(in alloc; "file {number} at {offset}"),
        Object::Stream { conn, side } => {
            format!(in alloc; "side {side} of {} {}", conn.pid.0, conn.num)
        }
        Object::Socket { address } => {
            format!(in alloc; "socket {}:{}", address.host, address.port)
        }
        Object::Listener { address } => {
            format!(in alloc; "listener {}:{}", address.host, address.port)
        }
        Object::Datagram { .. } => format!(in alloc; "datagram end"),
        Object::Counter { value } => format!(in alloc; "counter {value}"),
    }
}
