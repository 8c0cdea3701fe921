use conn_table::DatagramPairs;
use fd_book::Book;
use proc_book::Procs;
use vfs_files::Files;
use wire_net::Net;

/// How many virtual hosts there are.
pub const HOST_COUNT: usize = 16;

/// How many nodes there are, and from where on they hand out process numbers and ports. Host h begins on node
/// (h + shift) mod nodes.
#[derive(Clone, Copy)]
pub struct Hosts {
    pub nodes: u32,
    pub shift: u32,
    pub pid_base: u32,
    pub port_base: u32,
}

/// A kernel over real numbers, for all nodes.
pub struct Kernel {
    pub files: Files,
    pub book: Book,
    pub net: Net,
    pub procs: Procs,
    pub datagrams: DatagramPairs,
    /// The node of each host.
    pub nodes: [u32; HOST_COUNT],
}

// Written out, so that to other crates it is one call to drop a kernel, and table by table, since how one is
// dropped is proved again where it stands beside another.
impl Drop for Kernel {
    fn drop(self) {
        let Kernel {
            files,
            book,
            net,
            procs,
            datagrams,
            nodes: _,
        } = self;
        drop_files(files);
        drop_book(book);
        drop_net(net);
        drop_procs(procs);
        drop_datagrams(datagrams);
    }
}

fn drop_files(_files: Files) {}

fn drop_book(_book: Book) {}

fn drop_net(_net: Net) {}

fn drop_procs(_procs: Procs) {}

fn drop_datagrams(_datagrams: DatagramPairs) {}
