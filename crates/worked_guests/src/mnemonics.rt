use rv_words::Op;

/// Which operands an instruction has, in the order in which they are written.
#[derive(Clone, Copy)]
pub enum Operands {
    /// `rd, rs1, rs2`
    Registers,
    /// `rd, rs1, imm`
    Immediate,
    /// `rd, imm(rs1)`
    Load,
    /// `rs2, imm(rs1)`
    Store,
    /// `rs1, rs2, imm`
    Branch,
    /// `rd, imm`
    Upper,
    /// None.
    Nothing,
}

/// The instructions by their mnemonics.
pub const MNEMONICS: [(&str, Op, Operands); 47] = [
    ("lui", Op::Lui, Operands::Upper),
    ("auipc", Op::Auipc, Operands::Upper),
    ("jal", Op::Jal, Operands::Upper),
    ("jalr", Op::Jalr, Operands::Load),
    ("beq", Op::Beq, Operands::Branch),
    ("bne", Op::Bne, Operands::Branch),
    ("blt", Op::Blt, Operands::Branch),
    ("bge", Op::Bge, Operands::Branch),
    ("bltu", Op::Bltu, Operands::Branch),
    ("bgeu", Op::Bgeu, Operands::Branch),
    ("lb", Op::Lb, Operands::Load),
    ("lh", Op::Lh, Operands::Load),
    ("lw", Op::Lw, Operands::Load),
    ("lbu", Op::Lbu, Operands::Load),
    ("lhu", Op::Lhu, Operands::Load),
    ("sb", Op::Sb, Operands::Store),
    ("sh", Op::Sh, Operands::Store),
    ("sw", Op::Sw, Operands::Store),
    ("addi", Op::Addi, Operands::Immediate),
    ("slti", Op::Slti, Operands::Immediate),
    ("sltiu", Op::Sltiu, Operands::Immediate),
    ("xori", Op::Xori, Operands::Immediate),
    ("ori", Op::Ori, Operands::Immediate),
    ("andi", Op::Andi, Operands::Immediate),
    ("slli", Op::Slli, Operands::Immediate),
    ("srli", Op::Srli, Operands::Immediate),
    ("srai", Op::Srai, Operands::Immediate),
    ("add", Op::Add, Operands::Registers),
    ("sub", Op::Sub, Operands::Registers),
    ("sll", Op::Sll, Operands::Registers),
    ("slt", Op::Slt, Operands::Registers),
    ("sltu", Op::Sltu, Operands::Registers),
    ("xor", Op::Xor, Operands::Registers),
    ("srl", Op::Srl, Operands::Registers),
    ("sra", Op::Sra, Operands::Registers),
    ("or", Op::Or, Operands::Registers),
    ("and", Op::And, Operands::Registers),
    ("mul", Op::Mul, Operands::Registers),
    ("mulh", Op::Mulh, Operands::Registers),
    ("mulhsu", Op::Mulhsu, Operands::Registers),
    ("mulhu", Op::Mulhu, Operands::Registers),
    ("div", Op::Div, Operands::Registers),
    ("divu", Op::Divu, Operands::Registers),
    ("rem", Op::Rem, Operands::Registers),
    ("remu", Op::Remu, Operands::Registers),
    ("ecall", Op::Ecall, Operands::Nothing),
    ("ebreak", Op::Ebreak, Operands::Nothing),
];

/// The registers by their names, `x0` first.
pub const REGISTERS: [&str; 32] = [
    "zero", "ra", "sp", "gp", "tp", "t0", "t1", "t2", "s0", "s1", "a0", "a1", "a2", "a3", "a4",
    "a5", "a6", "a7", "s2", "s3", "s4", "s5", "s6", "s7", "s8", "s9", "s10", "s11", "t3", "t4",
    "t5", "t6",
];
