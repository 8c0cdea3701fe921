ghost use Rattle.std.specs.Prelude.{◌≡◌, ℕ, List, [], ◌∷◌, ◌++◌, map, true, IfSome, IfNone, option_map, string_bytes};
ghost use Rattle.option_words.specs.Options.{Setting, file, IsSetting, words_of};
ghost use Rattle.option_words.specs.Reading.{seen, kept_number, has_room, with_setting, Keeps, IsRead, NoneFollows, texts_of};

use crate::files::Files;
use crate::number::number_in;
use crate::option_key::{Form, OptionKey};

/// How many options have a number.
const KEYS: usize = 7;

/// The longest name of a file, in bytes.
const LONGEST_NAME: usize = 255;

/// An option with its value.
#[derive(Clone, Copy)]
pub enum Given<'a> {
    /// An option with its number.
    Number(OptionKey, u32),
    /// `--file` with a name.
    File(&'a str),
}

/// What the options of a command line give. It takes no memory.
#[derive(Drop)]
pub struct Options<'a> {
    numbers: [Option<u32>; KEYS],
    /// The names given by `--file`.
    pub files: Files<'a>,
}

impl<'a> Options<'a> {
    /// What no options give.
    pub fn none() -> Self
        ensures { Keeps result [] }
    {
        Options {
            numbers: [None; KEYS],
            files: Files::none(),
        }
    }

    /// The number that is given for the option.
    pub fn get(&self, key: OptionKey) -> Option<u32>
        ensures { result ≡ kept_number self.now key }
    {
        self.numbers[key.place()]
    }

    /// Whether the setting may be given beside these.
    fn has_room(&self, given: Given<'_>) -> bool
        ensures { result ≡ has_room self.now (seen given.entry) }
    {
        match given {
            Given::Number(key, _) => self.get(key).is_none(),
            Given::File(name) => self.files.has_room() && !self.files.contains(name),
        }
    }

    fn take(&mut self, given: Given<'a>)
        requires { has_room self.old (seen given) ≡ true }
        ensures { self.new ≡ with_setting self.old (seen given.entry) }
    {
        match given {
            Given::Number(key, number) => {
                self.numbers[key.place()] = Some(number);
            }
            Given::File(name) => self.files.push(name),
        }
    }

    /// The setting that stands first in the words, if it may be given beside these, and the words after it.
    fn next(&self, form: Form, words: &'a [String]) -> Option<(Given<'a>, &'a [String])>
        ensures some { IfSome result (λ found. IsSetting form (seen found.0) × (has_room self.now (seen found.0) ≡ true)
            × (texts_of words.now ≡ words_of (seen found.0) ++ texts_of found.1.now)) }
        ensures none { IfNone result (NoneFollows form self.now (texts_of words.now)) }
    {
        let (name, rest) = words.split_first()?;
        let (value, rest) = rest.split_first()?;
        let given = form.setting(name.as_str(), value.as_str())?;
        if self.has_room(given) {
            Some((given, rest))
        } else {
            None
        }
    }
}

impl Form {
    /// The setting of these two words. `None` exactly where they are none of this form.
    fn setting<'a>(self, name: &str, value: &'a str) -> Option<Given<'a>>
        ensures some { IfSome result (λ given. IsSetting self (seen given) × (name.now ∷ value.now ∷ [] ≡ words_of (seen given))) }
        ensures none { IfNone result ((setting : Setting) → IsSetting self setting → name.now ∷ value.now ∷ [] ≡ words_of setting → ⊥) }
    {
        if name == "--file" {
            return self.file(value);
        }
        let key = OptionKey::named(name)?;
        if !self.has(key) {
            return None;
        }
        let number = number_in(value, key.least(), key.greatest())?;
        Some(Given::Number(key, number))
    }

    /// The file that is named by a word behind `--file`.
    fn file<'a>(self, name: &'a str) -> Option<Given<'a>>
        ensures some { IfSome result (λ given. IsSetting self (seen given) × (seen given ≡ file name.now)) }
        ensures none { IfNone result (IsSetting self (file name.now) → ⊥) }
    {
        match self {
            Form::Launch => {}
            Form::Restart | Form::Ring => return None,
        }
        if name.is_empty() {
            return None;
        }
        if name.len() > LONGEST_NAME {
            return None;
        }
        Some(Given::File(name))
    }
}

/// The settings that the words begin with, as many as there are, and the words after them.
pub fn read_options<'a>(form: Form, words: &'a [String]) -> (Options<'a>, &'a [String])
    ensures read { IsRead form (texts_of words.now) result.0 (texts_of result.1.now) }
    ensures whole { NoneFollows form result.0 (texts_of result.1.now) }
{
    let mut options = Options::none();
    let mut rest = words;
    while let Some((given, after)) = options.next(form, rest) {
        options.take(given);
        rest = after;
    }
    (options, rest)
}
