use crate::outcome::Outcome;
use crate::printing::{ALL, put_outcome};
use std::alloc::AllocError;
use std::fmt::Write;

/// Outcomes of a row of calls, of which each stretch of like ones is printed once.
#[derive(Drop)]
pub struct Sweep {
    stretch: Option<Stretch>,
}

/// Calls in a row with the same outcome.
#[derive(Drop)]
struct Stretch {
    first: u64,
    last: u64,
    outcome: Box<Outcome>,
}

impl Sweep {
    pub fn new() -> Self {
        Sweep { stretch: None }
    }

    /// Takes the outcome at the next call.
    pub fn take(
        &mut self,
        text: &mut String,
        call: u64,
        outcome: Box<Outcome>,
    ) -> Result<(), AllocError> {
        if self.goes_on(&outcome) {
            self.lengthen(call);
            return Ok(());
        }
        self.put(text)?;
        self.stretch = Some(Stretch {
            first: call,
            last: call,
            outcome,
        });
        Ok(())
    }

    fn goes_on(&self, outcome: &Outcome) -> bool {
        match &self.stretch {
            Some(stretch) => stretch.outcome.is_like(outcome),
            None => false,
        }
    }

    fn lengthen(&mut self, call: u64) {
        if let Some(stretch) = &mut self.stretch {
            stretch.last = call;
        }
    }

    /// Prints the stretch so far.
    pub fn put(&self, text: &mut String) -> Result<(), AllocError> {
        match &self.stretch {
            Some(stretch) => put_stretch(text, stretch),
            None => Ok(()),
        }
    }
}

fn put_stretch(text: &mut String, stretch: &Stretch) -> Result<(), AllocError> {
    let first = stretch.first;
    let last = stretch.last;
    writeln!(text, " calls {first} to {last}")?;
    put_outcome(text, &stretch.outcome, ALL)
}
