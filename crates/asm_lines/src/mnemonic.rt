ghost use Rattle.std.specs.Prelude.{◌≡◌, find};
ghost use Rattle.std.specs.Str.{bytes_eq};
ghost use Rattle.asm_lines.specs.Mnemonics.{mnemonic, op_named, operands_of};

use plain_process::Op;

/// Which operands an instruction has, in the order in which they are written.
#[derive(Clone, Copy)]
pub(crate) enum Operands {
    /// `rd, rs1, rs2`
    Registers,
    /// `rd, rs1, n`
    Immediate,
    /// `rd, n(rs1)`
    Load,
    /// `rs2, n(rs1)`
    Store,
    /// `rs1, rs2, label`
    Branch,
    /// `rd, n`
    Upper,
    /// `rd, label`
    Jump,
    /// None.
    Nothing,
}

/// The instructions, in the order of the machine's table.
const OPS: [Op; 48] = [
    Op::Lui,
    Op::Auipc,
    Op::Jal,
    Op::Jalr,
    Op::Beq,
    Op::Bne,
    Op::Blt,
    Op::Bge,
    Op::Bltu,
    Op::Bgeu,
    Op::Lb,
    Op::Lh,
    Op::Lw,
    Op::Lbu,
    Op::Lhu,
    Op::Sb,
    Op::Sh,
    Op::Sw,
    Op::Addi,
    Op::Slti,
    Op::Sltiu,
    Op::Xori,
    Op::Ori,
    Op::Andi,
    Op::Slli,
    Op::Srli,
    Op::Srai,
    Op::Add,
    Op::Sub,
    Op::Sll,
    Op::Slt,
    Op::Sltu,
    Op::Xor,
    Op::Srl,
    Op::Sra,
    Op::Or,
    Op::And,
    Op::Mul,
    Op::Mulh,
    Op::Mulhsu,
    Op::Mulhu,
    Op::Div,
    Op::Divu,
    Op::Rem,
    Op::Remu,
    Op::Fence,
    Op::Ecall,
    Op::Ebreak,
];

/// The instruction of this name.
#[tactic(auto, unfolding(crate::specs::Mnemonics::op_named))]
pub(crate) fn op_named(word: &str) -> Option<Op>
    ensures { result ≡ op_named word.now }
{
    named_in(&OPS, word)
}

fn named_in(ops: &[Op], word: &str) -> Option<Op>
    ensures { result ≡ find (λ op. bytes_eq (mnemonic op) word.now) ops.now }
{
    ops.iter().copied().find(|op| mnemonic(*op) == word)
}

/// The name of an instruction.
#[tactic(auto, unfolding(crate::specs::Mnemonics::mnemonic))]
fn mnemonic(op: Op) -> &'static str
    ensures { result.now ≡ mnemonic op }
{
    match op {
        Op::Lui => "lui",
        Op::Auipc => "auipc",
        Op::Jal => "jal",
        Op::Jalr => "jalr",
        Op::Beq => "beq",
        Op::Bne => "bne",
        Op::Blt => "blt",
        Op::Bge => "bge",
        Op::Bltu => "bltu",
        Op::Bgeu => "bgeu",
        Op::Lb => "lb",
        Op::Lh => "lh",
        Op::Lw => "lw",
        Op::Lbu => "lbu",
        Op::Lhu => "lhu",
        Op::Sb => "sb",
        Op::Sh => "sh",
        Op::Sw => "sw",
        Op::Addi => "addi",
        Op::Slti => "slti",
        Op::Sltiu => "sltiu",
        Op::Xori => "xori",
        Op::Ori => "ori",
        Op::Andi => "andi",
        Op::Slli => "slli",
        Op::Srli => "srli",
        Op::Srai => "srai",
        Op::Add => "add",
        Op::Sub => "sub",
        Op::Sll => "sll",
        Op::Slt => "slt",
        Op::Sltu => "sltu",
        Op::Xor => "xor",
        Op::Srl => "srl",
        Op::Sra => "sra",
        Op::Or => "or",
        Op::And => "and",
        Op::Mul => "mul",
        Op::Mulh => "mulh",
        Op::Mulhsu => "mulhsu",
        Op::Mulhu => "mulhu",
        Op::Div => "div",
        Op::Divu => "divu",
        Op::Rem => "rem",
        Op::Remu => "remu",
        Op::Fence => "fence",
        Op::Ecall => "ecall",
        Op::Ebreak => "ebreak",
    }
}

/// The operands of an instruction.
#[tactic(auto, unfolding(crate::specs::Mnemonics::operands_of))]
pub(crate) fn operands_of(op: Op) -> Operands
    ensures { result ≡ operands_of op }
{
    match op {
        Op::Add
        | Op::Sub
        | Op::Sll
        | Op::Slt
        | Op::Sltu
        | Op::Xor
        | Op::Srl
        | Op::Sra
        | Op::Or
        | Op::And
        | Op::Mul
        | Op::Mulh
        | Op::Mulhsu
        | Op::Mulhu
        | Op::Div
        | Op::Divu
        | Op::Rem
        | Op::Remu => Operands::Registers,
        Op::Addi
        | Op::Slti
        | Op::Sltiu
        | Op::Xori
        | Op::Ori
        | Op::Andi
        | Op::Slli
        | Op::Srli
        | Op::Srai => Operands::Immediate,
        Op::Jalr | Op::Lb | Op::Lh | Op::Lw | Op::Lbu | Op::Lhu => Operands::Load,
        Op::Sb | Op::Sh | Op::Sw => Operands::Store,
        Op::Beq | Op::Bne | Op::Blt | Op::Bge | Op::Bltu | Op::Bgeu => Operands::Branch,
        Op::Lui | Op::Auipc => Operands::Upper,
        Op::Jal => Operands::Jump,
        Op::Fence | Op::Ecall | Op::Ebreak => Operands::Nothing,
    }
}
