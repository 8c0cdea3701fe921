use plain_process::Insn;

/// What a line of a program's text says.
#[derive(Clone, Copy)]
pub enum Statement<'a> {
    /// Nothing: the line is empty, or a comment.
    Nothing,
    /// A label of this name.
    Label(&'a str),
    /// An instruction, whose operands may still be past their fields.
    One(Insn),
    /// An instruction whose immediate is how far the label of this name is from it.
    Aimed(Insn, &'a str),
    /// A word into this register, by two instructions.
    Constant(u8, u32),
    /// The address of the label of this name into this register, by two instructions.
    Address(u8, &'a str),
    /// A word.
    Word(u32),
    /// A byte.
    Byte(u8),
    /// So many zeros.
    Zeros(u32),
    /// The bytes that the text between two quotes spells.
    Ascii(&'a str),
    /// Zeros up to a multiple of 4.
    Align,
}
