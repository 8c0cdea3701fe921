/// The integer registers x0 to x31 and the program counter of one hart (unprivileged manual, section 2.1).
/// The place of x0 is never written, and it reads 0.
#[derive(Clone, Copy)]
pub struct Regs {
    pub x: [u32; 32],
    pub pc: u32,
}
