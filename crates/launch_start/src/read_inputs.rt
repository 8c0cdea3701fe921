ghost use Rattle.std.specs.Prelude.{◌≡◌, ◌≤◌, IfOk, IfErr, All};
ghost use Rattle.views.specs.Faults.{Rose};
ghost use Rattle.plain_process.specs.Valid.{IsByte};
ghost use Rattle.endings.specs.Endings.{status_of};
ghost use Rattle.launch_start.specs.JobStarts.{Blames, IsBadProgram, IsFileRead, IsFileRefused, IsProgramOf, IsProgramRead, IsProgramRefused};

use edge_io::{InputFault, Inputs};
use elf32::{ElfReason, Program, read_elf};
use endings::{Ending, Status};
use job_words::NamedProgram;
use std::alloc::Global;
use views::list_of::ListOf;

/// The bytes of the file of this name.
pub(crate) fn read_file<'a, I: Inputs>(
    alloc: Global,
    name: &'a str,
    inputs: &mut I,
) -> Result<ListOf<u8>, Ending<'a>>
    ensures read { IfOk result (λ bytes. IsFileRead (I.seen inputs.old).files name.now bytes) }
    ensures refused { IfErr result (λ ending. Blames ending (IsFileRefused (I.seen inputs.old).files name.now)) }
    ensures input { IfErr result (λ ending. status_of ending ≡ Status.InputFault
        → Rose (I.seen inputs.old).faults (I.seen inputs.new).faults) }
    ensures later { (I.seen inputs.old).faults ≤ (I.seen inputs.new).faults }
    ensures same { (I.seen inputs.new).files ≡ (I.seen inputs.old).files }
{
    match inputs.read(alloc, name) {
        Ok(Some(bytes)) => {
            look_at_bytes(bytes.as_slice());
            Ok(ListOf::from_vec(bytes))
        }
        Ok(None) => Err(Ending::Missing(name)),
        Err(InputFault::Failed) => Err(Ending::InputFault(name)),
        Err(InputFault::Memory) => Err(Ending::Memory),
    }
}

/// The program in its file.
pub(crate) fn read_program<'a, I: Inputs>(
    alloc: Global,
    program: &'a NamedProgram,
    inputs: &mut I,
) -> Result<Program, Ending<'a>>
    ensures read { IfOk result (λ elf. IsProgramRead (I.seen inputs.old).files program.now.name elf) }
    ensures refused { IfErr result (λ ending.
        Blames ending (IsProgramRefused (I.seen inputs.old).files program.now)) }
    ensures input { IfErr result (λ ending. status_of ending ≡ Status.InputFault
        → Rose (I.seen inputs.old).faults (I.seen inputs.new).faults) }
    ensures later { (I.seen inputs.old).faults ≤ (I.seen inputs.new).faults }
    ensures same { (I.seen inputs.new).files ≡ (I.seen inputs.old).files }
{
    let name = program.name.as_str();
    let bytes = read_file(alloc, name, inputs)?;
    program_in(alloc, name, bytes.as_slice())
}

/// The program that the bytes of a file describe.
fn program_in<'a>(alloc: Global, name: &'a str, file: &[u8]) -> Result<Program, Ending<'a>>
    ensures ok { IfOk result (IsProgramOf file.now) }
    ensures err { IfErr result (λ ending. Blames ending (IsBadProgram name.now file.now)) }
{
    match read_elf(alloc, file) {
        Ok(program) => Ok(program),
        Err(fault) => {
            if fault.reason == ElfReason::Memory {
                Err(Ending::Memory)
            } else {
                Err(Ending::BadElf(name, fault))
            }
        }
    }
}

/// Looks at bytes, so that they are known to be bytes.
pub fn look_at_bytes(bytes: &[u8])
    ensures { All IsByte bytes.now }
{}
