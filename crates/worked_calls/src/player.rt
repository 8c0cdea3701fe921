use crate::looks::look;
use crate::runs::run;
use crate::settings::prepare;
use std::alloc::{AllocError, Global};
use std::collections::BTreeMap;
use std::fmt::Write;
use std::mem;
use worked_benches::bench::Bench;
use worked_benches::printing::{ALL, NONE, Shown};
use worked_guests::fault::CaseFault;
use worked_guests::guest::{Guest, Guests};
use worked_guests::numbers::Numbers;
use worked_guests::words::words_of;

/// What the lines so far have said: the names of numbers, the guests, the name and the lines of the
/// guest that is being told, the case that is being played, and what its calls show.
#[derive(Drop)]
pub struct Player {
    alloc: Global,
    numbers: Numbers,
    guests: Guests,
    told: Option<String>,
    guest: Guest,
    bench: Box<Bench>,
    shown: Shown,
}

impl Player {
    pub fn new(alloc: Global) -> Result<Self, AllocError> {
        let bench = Bench::new(alloc)?;
        Ok(Player {
            alloc,
            numbers: Numbers::new(alloc),
            guests: BTreeMap::new(alloc),
            told: None,
            guest: Guest::new(alloc),
            bench: Box::new(alloc, bench)?,
            shown: ALL,
        })
    }

    /// Carries out a line, and prints what it shows.
    pub fn take(&mut self, line: &str, text: &mut String) -> Result<(), AllocError> {
        let words = words_of(self.alloc, line)?;
        match self.carry_out(line, words.as_slice(), text) {
            Ok(()) => Ok(()),
            Err(CaseFault::Unclear) => writeln!(text, "NOT UNDERSTOOD: {line}"),
            Err(CaseFault::Memory) => Err(AllocError),
        }
    }

    fn carry_out(
        &mut self,
        line: &str,
        words: &[String],
        text: &mut String,
    ) -> Result<(), CaseFault> {
        let [first, rest @ ..] = words else {
            return Ok(());
        };
        if self.told.is_some() {
            return self.tell_guest(first.as_str(), words);
        }
        match (first.as_str(), rest) {
            ("number", [name, value]) => self.name_number(name.as_str(), value.as_str()),
            ("guest", [name]) => self.begin_guest(name.as_str()),
            ("case", [name]) => self.begin_case(name.as_str(), text),
            ("show", parts) => self.show(parts),
            _ => self.play(line, first.as_str(), rest, text),
        }
    }

    fn name_number(&mut self, name: &str, value: &str) -> Result<(), CaseFault> {
        let value = self.numbers.read(value)?;
        self.numbers.name(self.alloc, name, value)?;
        Ok(())
    }

    fn begin_guest(&mut self, name: &str) -> Result<(), CaseFault> {
        self.guest = Guest::new(self.alloc);
        self.told = Some(String::from_str(self.alloc, name)?);
        Ok(())
    }

    fn tell_guest(&mut self, first: &str, words: &[String]) -> Result<(), CaseFault> {
        if first == "end" {
            return self.end_guest();
        }
        self.guest.take(&self.numbers, &self.guests, words)
    }

    fn end_guest(&mut self) -> Result<(), CaseFault> {
        let guest = mem::replace(&mut self.guest, Guest::new(self.alloc));
        if let Some(name) = self.told.take() {
            self.guests.insert(name, guest)?;
        }
        Ok(())
    }

    fn begin_case(&mut self, name: &str, text: &mut String) -> Result<(), CaseFault> {
        let bench = Bench::new(self.alloc)?;
        self.bench = Box::new(self.alloc, bench)?;
        self.shown = ALL;
        writeln!(text, "\n== {name}")?;
        Ok(())
    }

    /// Sets which parts of an outcome are shown.
    fn show(&mut self, parts: &[String]) -> Result<(), CaseFault> {
        self.shown = NONE;
        for part in parts {
            match part.as_str() {
                "status" => self.shown.status = true,
                "console" => self.shown.console = true,
                "log" => self.shown.log = true,
                "trace" => self.shown.trace = true,
                _ => return Err(CaseFault::Unclear),
            }
        }
        Ok(())
    }

    fn play(
        &mut self,
        line: &str,
        directive: &str,
        words: &[String],
        text: &mut String,
    ) -> Result<(), CaseFault> {
        if prepare(
            self.alloc,
            &mut self.bench,
            &self.numbers,
            &self.guests,
            directive,
            words,
        )? {
            return Ok(());
        }
        writeln!(text, "> {line}")?;
        if run(
            self.alloc,
            &mut self.bench,
            self.shown,
            directive,
            words,
            text,
        )? {
            return Ok(());
        }
        look(
            self.alloc,
            &mut self.bench,
            &self.numbers,
            &self.guests,
            directive,
            words,
            text,
        )
    }
}
