ghost use Rattle.std.specs.Prelude.{◌≡◌, pos};
ghost use Rattle.asm_lines.specs.Lines.{insn};
ghost use Rattle.rv_asm.specs.Labels.{Adds};
ghost use Rattle.rv_asm.specs.Pieces.{has_word, distance, with_immediate, upper, is_aligned, word_at, insn_at, pair_at, two_parts, WordsDecode, PartsFit, PartsAdd};

use rv_words::{Insn, Op, encode, is_valid};
use std::alloc::AllocError;

/// Whether an instruction may begin at this place.
pub(crate) fn is_aligned(place: u32) -> bool
    ensures { result ≡ is_aligned place }
{
    place % 4 == 0
}

/// How far a place is from another, modulo 2^32.
pub(crate) fn distance(from: u32, to: u32) -> u32
    ensures { result ≡ distance from to }
{
    to.wrapping_sub(from)
}

/// The instruction with this immediate.
#[tactic(auto, unfolding(crate::specs::Pieces::with_immediate))]
pub(crate) fn with_immediate(insn: Insn, word: u32) -> Insn
    ensures { result ≡ with_immediate insn word }
{
    Insn {
        imm: word.cast_signed(),
        ..insn
    }
}

/// The multiple of 2^12 that is next to a word.
fn upper(word: u32) -> u32
    ensures { result ≡ upper word }
{
    word.wrapping_add(0x800) / 0x1000 * 0x1000
}

/// Whether the instruction's operands fit their fields.
fn has_word(insn: Insn) -> bool
    ensures { result ≡ has_word insn }
{
    is_valid(insn)
}

/// Puts a word behind these bytes. `false` where its place is no multiple of 4; then nothing is put.
pub(crate) fn put_word(out: &mut Vec<u8>, place: u32, word: u32) -> Result<bool, AllocError>
    ensures { Adds result out.old.items out.new.items (word_at place word) }
{
    if !is_aligned(place) {
        return Ok(false);
    }
    out.extend_from_slice(&word.to_le_bytes())?;
    Ok(true)
}

/// Puts an instruction behind these bytes. `false` where its place is no multiple of 4 or its operands don't
/// fit; then nothing is put.
#[tactic(auto, unfolding(crate::specs::Pieces::insn_at))]
pub(crate) fn put_insn(out: &mut Vec<u8>, place: u32, insn: Insn) -> Result<bool, AllocError>
    ensures { Adds result out.old.items out.new.items (insn_at place insn) }
{
    if !is_aligned(place) {
        return Ok(false);
    }
    if !has_word(insn) {
        return Ok(false);
    }
    out.extend_from_slice(&encode(insn).to_le_bytes())?;
    Ok(true)
}

/// Puts two instructions behind these bytes, or none.
#[tactic(auto, unfolding(crate::specs::Pieces::pair_at))]
fn put_pair(out: &mut Vec<u8>, place: u32, first: Insn, second: Insn) -> Result<bool, AllocError>
    ensures { Adds result out.old.items out.new.items (pair_at place first second) }
{
    if !is_aligned(place) {
        return Ok(false);
    }
    if !has_word(first) {
        return Ok(false);
    }
    if !has_word(second) {
        return Ok(false);
    }
    out.extend_from_slice(&encode(first).to_le_bytes())?;
    out.extend_from_slice(&encode(second).to_le_bytes())?;
    Ok(true)
}

/// Puts lui or auipc with the upper part of a word, and addi with the lower.
pub(crate) fn put_two_parts(
    out: &mut Vec<u8>,
    place: u32,
    op: Op,
    rd: u8,
    word: u32,
) -> Result<bool, AllocError>
    ensures { Adds result out.old.items out.new.items
        (two_parts place (insn op rd 0 0 (pos 0)) rd word) }
{
    let upper = upper(word);
    let first = of_registers(op, rd, 0);
    let second = of_registers(Op::Addi, rd, rd);
    put_pair(
        out,
        place,
        with_immediate(first, upper),
        with_immediate(second, distance(upper, word)),
    )
}

/// An instruction with these registers.
fn of_registers(op: Op, rd: u8, rs1: u8) -> Insn
    ensures { result ≡ insn op rd rs1 0 (pos 0) }
{
    Insn {
        op,
        rd,
        rs1,
        rs2: 0,
        imm: 0,
    }
}

/// Laws of the words that lines are made of: where operands fit, the word is decoded as the instruction; the
/// two parts of a constant or an address always fit, and add up to it. It does nothing.
pub fn word_laws()
    ensures decode { WordsDecode }
    ensures fit { PartsFit }
    ensures add { PartsAdd }
{}
