ghost use Rattle.std.specs.Prelude.{◌≡◌, ◌≤◌, ℕ, ◌+◌, List, [], ◌∷◌, ◌++◌, length, map, Option, IfOk, IfErr, OnOk};
ghost use Rattle.views.specs.Faults.{Rose};
ghost use Rattle.edge_io.specs.Inputs.{NamedFiles};
ghost use Rattle.option_words.specs.Options.{Text};
ghost use Rattle.job_words.specs.declared.job.Job.TheVariants.{Launch};
ghost use Rattle.endings.specs.Endings.{status_of};
ghost use Rattle.job_words.specs.Jobs.{IsJob};
ghost use Rattle.launch_start.specs.JobInputs.{FileInput, JobInputs, AreInputs, IsFirstRefusal, found};
ghost use Rattle.launch_start.specs.JobStarts.{Blames, CanFollow, CanRun, HasRead, IsFileRefused, IsLoaded, IsProgramRefused, file_input, files_alone, room_after, with_program};

use crate::read_inputs::{look_at_bytes, read_file, read_program};
use edge_io::Inputs;
use endings::{Ending, Status};
use job_words::{FileName, LaunchJob, NamedProgram};
use run_start::Start;
use std::alloc::Global;

/// How many bytes the files of a job may have together.
const MOST_BYTES: usize = 67_108_864;

/// The start of a job, as far as its files and programs have been read.
#[derive(Drop)]
pub struct JobStart {
    pub state: Start,
    /// How many bytes more its files may have. There is none where they have too many.
    pub room: Option<usize>,
}

/// The state at which a job begins, when all its files and programs have been read.
pub fn load<'a, I: Inputs>(
    alloc: Global,
    job: &'a LaunchJob,
    inputs: &mut I,
) -> Result<Start, Ending<'a>>
    requires { (words : List Text) × IsJob words (Launch job.now) }
    ensures loaded { IfOk result (λ start. IsLoaded (I.seen inputs.old).files job.now start) }
    ensures refused { IfErr result (λ ending. Blames ending (IsFirstRefusal (I.seen inputs.old).files job.now)) }
    ensures input { IfErr result (λ ending. status_of ending ≡ Status.InputFault
        → Rose (I.seen inputs.old).faults (I.seen inputs.new).faults) }
    ensures same { (I.seen inputs.new).files ≡ (I.seen inputs.old).files }
{
    let mut start = JobStart::new(alloc);
    start.add_files(alloc, job, inputs)?;
    start.add_programs(alloc, job, inputs)?;
    match start.room {
        Some(_) => Ok(start.state),
        None => Err(Ending::TooBig),
    }
}

impl JobStart {
    fn new(alloc: Global) -> JobStart
        ensures { (files : Option NamedFiles) → HasRead files result (files_alone []) }
    {
        JobStart {
            state: Start::empty(alloc),
            room: Some(MOST_BYTES),
        }
    }

    /// Reads the files of the job, in the order of the words.
    fn add_files<'a, I: Inputs>(
        &mut self,
        alloc: Global,
        job: &'a LaunchJob,
        inputs: &mut I,
    ) -> Result<(), Ending<'a>>
        requires asked { (words : List Text) × IsJob words (Launch job.now) }
        requires empty { HasRead (I.seen inputs.old).files self.old (files_alone []) }
        ensures ok { OnOk result ((files : List FileInput)
            × (HasRead (I.seen inputs.old).files self.new (files_alone files)
            × (map (λ (input : FileInput). input.name) files ≡ job.now.file))) }
        ensures refused { IfErr result (λ ending. Blames ending (IsFirstRefusal (I.seen inputs.old).files job.now)) }
        ensures input { IfErr result (λ ending. status_of ending ≡ Status.InputFault
            → Rose (I.seen inputs.old).faults (I.seen inputs.new).faults) }
        ensures later { (I.seen inputs.old).faults ≤ (I.seen inputs.new).faults }
        ensures same { (I.seen inputs.new).files ≡ (I.seen inputs.old).files }
    {
        for name in job.file.as_slice() {
            self.add_file(alloc, name, inputs)?;
        }
        Ok(())
    }

    /// Reads the file of this name.
    fn add_file<'a, I: Inputs>(
        &mut self,
        alloc: Global,
        name: &'a FileName,
        inputs: &mut I,
    ) -> Result<(), Ending<'a>>
        requires next { (before : List FileInput)
            × (HasRead (I.seen inputs.old).files self.old (files_alone before) × CanFollow before name.now) }
        ensures ok { OnOk result ((before : List FileInput)
            → HasRead (I.seen inputs.old).files self.old (files_alone before) → CanFollow before name.now
            → (bytes : List ℕ) × HasRead (I.seen inputs.old).files self.new
            (files_alone (before ++ file_input name.now (found bytes) ∷ []))) }
        ensures refused { IfErr result (λ ending. Blames ending (IsFileRefused (I.seen inputs.old).files name.now)) }
        ensures input { IfErr result (λ ending. status_of ending ≡ Status.InputFault
            → Rose (I.seen inputs.old).faults (I.seen inputs.new).faults) }
        ensures later { (I.seen inputs.old).faults ≤ (I.seen inputs.new).faults }
        ensures same { (I.seen inputs.new).files ≡ (I.seen inputs.old).files }
    {
        let bytes = read_file(alloc, name.as_str(), inputs)?;
        self.room = less(self.room, bytes.len());
        if self.room.is_some() {
            let name = name.as_str().as_bytes();
            look_at_bytes(name);
            self.state.add_file(alloc, name, bytes.as_slice())?;
        }
        Ok(())
    }

    /// Reads the programs of the job, in the order of the words, when its files have been read.
    fn add_programs<'a, I: Inputs>(
        &mut self,
        alloc: Global,
        job: &'a LaunchJob,
        inputs: &mut I,
    ) -> Result<(), Ending<'a>>
        requires asked { (words : List Text) × IsJob words (Launch job.now) }
        requires files { (files : List FileInput)
            × (HasRead (I.seen inputs.old).files self.old (files_alone files)
            × (map (λ (input : FileInput). input.name) files ≡ job.now.file)) }
        ensures ok { OnOk result ((read : JobInputs) × (HasRead (I.seen inputs.old).files self.new read
            × AreInputs (I.seen inputs.old).files job.now read)) }
        ensures refused { IfErr result (λ ending. Blames ending (IsFirstRefusal (I.seen inputs.old).files job.now)) }
        ensures input { IfErr result (λ ending. status_of ending ≡ Status.InputFault
            → Rose (I.seen inputs.old).faults (I.seen inputs.new).faults) }
        ensures later { (I.seen inputs.old).faults ≤ (I.seen inputs.new).faults }
        ensures same { (I.seen inputs.new).files ≡ (I.seen inputs.old).files }
    {
        for program in job.programs.as_slice() {
            self.add_program(alloc, program, inputs)?;
        }
        Ok(())
    }

    /// Reads this program.
    fn add_program<'a, I: Inputs>(
        &mut self,
        alloc: Global,
        program: &'a NamedProgram,
        inputs: &mut I,
    ) -> Result<(), Ending<'a>>
        requires next { (before : JobInputs) × (HasRead (I.seen inputs.old).files self.old before
            × CanRun (length before.programs) program.now) }
        ensures ok { OnOk result ((before : JobInputs)
            → HasRead (I.seen inputs.old).files self.old before → CanRun (length before.programs) program.now
            → (bytes : List ℕ) × HasRead (I.seen inputs.old).files self.new (with_program before program.now bytes)) }
        ensures refused { IfErr result (λ ending.
            Blames ending (IsProgramRefused (I.seen inputs.old).files program.now)) }
        ensures input { IfErr result (λ ending. status_of ending ≡ Status.InputFault
            → Rose (I.seen inputs.old).faults (I.seen inputs.new).faults) }
        ensures later { (I.seen inputs.old).faults ≤ (I.seen inputs.new).faults }
        ensures same { (I.seen inputs.new).files ≡ (I.seen inputs.old).files }
    {
        let elf = read_program(alloc, program, inputs)?;
        if self.room.is_some() {
            let arguments = program.arguments.as_slice();
            look_at_bytes(arguments);
            self.state
                .add_program(alloc, program.host, &elf, arguments)?;
        }
        Ok(())
    }
}

/// What room is left after so many bytes, if there is that much.
fn less(room: Option<usize>, bytes: usize) -> Option<usize>
    ensures { (total : ℕ) → room ≡ room_after total → result ≡ room_after (total + bytes) }
{
    room?.checked_sub(bytes)
}
