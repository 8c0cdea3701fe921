//! Directives that make calls and show what they left.
use std::alloc::{AllocError, Global};
use std::fmt::Write;
use worked_benches::bench::Bench;
use worked_benches::chain::Kept;
use worked_benches::printing::{Shown, put_answer, put_outcome};
use worked_benches::sweeps::{in_halves, with_crashes, with_faults};
use worked_guests::fault::CaseFault;
use worked_guests::words::duplicate;

/// Carries out a directive that makes calls, and answers whether it is one.
pub fn run(
    alloc: Global,
    bench: &mut Bench,
    shown: Shown,
    directive: &str,
    words: &[String],
    text: &mut String,
) -> Result<bool, CaseFault> {
    match (directive, words) {
        ("run", call) => run_one(alloc, bench, shown, call, text)?,
        ("whole", call) => run_whole(bench, shown, call, text)?,
        ("part", call) => run_part(alloc, bench, shown, call, text)?,
        ("last", call) => run_last(alloc, bench, shown, call, text)?,
        ("halves", [program, places @ ..]) => {
            in_halves(alloc, bench, program.as_str(), places, text)?;
        }
        ("faults", call) => with_faults(alloc, bench, call, text)?,
        ("crashes", call) => with_crashes(alloc, bench, call, text)?,
        _ => return Ok(false),
    }
    Ok(true)
}

fn run_one(
    alloc: Global,
    bench: &mut Bench,
    shown: Shown,
    words: &[String],
    text: &mut String,
) -> Result<(), CaseFault> {
    bench.run(duplicate(alloc, words)?)?;
    put_outcome(text, bench.outcome()?, shown)?;
    Ok(())
}

fn run_whole(
    bench: &mut Bench,
    shown: Shown,
    words: &[String],
    text: &mut String,
) -> Result<(), CaseFault> {
    bench.run_whole(words)?;
    put_outcome(text, bench.whole()?, shown)?;
    Ok(())
}

fn run_part(
    alloc: Global,
    bench: &mut Bench,
    shown: Shown,
    words: &[String],
    text: &mut String,
) -> Result<(), CaseFault> {
    run_one(alloc, bench, shown, words, text)?;
    put_kept(text, bench.chain_part()?)?;
    Ok(())
}

fn run_last(
    alloc: Global,
    bench: &mut Bench,
    shown: Shown,
    words: &[String],
    text: &mut String,
) -> Result<(), CaseFault> {
    run_one(alloc, bench, shown, words, text)?;
    put_kept(text, bench.chain_end()?)?;
    put_answer(text, "as one run", bench.is_as_whole())?;
    Ok(())
}

fn put_kept(text: &mut String, kept: Kept) -> Result<(), AllocError> {
    let lost = kept.lost;
    let kept = kept.kept;
    writeln!(text, "  kept {kept}, lost {lost}")
}
