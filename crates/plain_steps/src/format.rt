/// Which fields an instruction has besides its opcode (unprivileged manual, sections 2.2 and 2.3). A shift's
/// amount stands where rs2 does, and a whole word has none.
#[derive(Clone, Copy)]
pub enum Format {
    R,
    I,
    S,
    B,
    U,
    J,
    Shift,
    Whole,
}

/// The fixed fields of a row of the instruction table.
#[derive(Clone, Copy)]
pub struct Encoding {
    pub format: Format,
    pub opcode: u32,
    pub funct3: u32,
    pub funct7: u32,
}
