use sys_abi::Errno;

/// What a kernel call over real numbers answers. Memory is merged with no other answer.
#[derive(Clone, Copy)]
pub enum KernelReply {
    Done(u32),
    Error(Errno),
    NotReady,
    Memory,
}
