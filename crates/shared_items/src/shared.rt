use plain_tables::ChannelKind;
use sys_abi::{ConnId, DescId, Life, VPid, VirtAddr};
use views::list_of::ListOf;

/// A file with its name, which is empty where it has none.
#[derive(Drop)]
pub struct FileImage {
    pub number: u32,
    pub name: ListOf<u8>,
    pub bytes: ListOf<u8>,
}

/// A side of a channel, with the direction in which it sends.
#[derive(Drop)]
pub struct SideImage {
    /// It sends no more.
    pub ended: bool,
    /// What it sends is read no more.
    pub unread: bool,
    /// The bytes that it sent and that are not read yet.
    pub left: ListOf<u8>,
    /// Where the channel is an internet connection.
    pub address: Option<VirtAddr>,
}

/// A channel with its two sides.
#[derive(Drop)]
pub struct ChannelImage {
    pub id: ConnId,
    pub kind: ChannelKind,
    pub first: SideImage,
    pub second: SideImage,
}

/// What an open description stands for.
#[derive(Drop)]
pub enum ObjectImage {
    Console,
    File {
        number: u32,
        offset: u32,
    },
    Stream {
        conn: ConnId,
        side: u8,
    },
    Socket {
        address: VirtAddr,
    },
    /// With the connections that wait to be accepted, oldest first.
    Listener {
        address: VirtAddr,
        backlog: u32,
        pending: ListOf<ConnId>,
    },
}

/// An open description, with its access mode and status flags and its owner (0: nobody).
#[derive(Drop)]
pub struct DescriptionImage {
    pub id: DescId,
    pub object: ObjectImage,
    pub flags: u32,
    pub owner: u32,
}

/// A thread of a process, with the signals that are pending for it.
#[derive(Clone, Copy)]
pub struct ThreadEntry {
    pub tid: u32,
    pub pending: u32,
}

/// A descriptor of a process, with the description to which it refers.
#[derive(Clone, Copy)]
pub struct DescriptorEntry {
    pub number: u32,
    pub desc: DescId,
    pub cloexec: bool,
}

/// A process, live or zombie.
#[derive(Drop)]
pub struct ProcessEntry {
    pub pid: VPid,
    pub parent: u32,
    pub host: u32,
    /// Its running number for the channels and descriptions that it makes.
    pub made: u32,
    pub life: Life,
    pub pending: u32,
    pub threads: ListOf<ThreadEntry>,
    pub descriptors: ListOf<DescriptorEntry>,
}

/// What all processes of a set share, as lists in rising order of their numbers.
#[derive(Drop)]
pub struct Shared {
    pub next_id: u32,
    pub next_file: u32,
    pub files: ListOf<FileImage>,
    pub channels: ListOf<ChannelImage>,
    pub descriptions: ListOf<DescriptionImage>,
    pub processes: ListOf<ProcessEntry>,
}
