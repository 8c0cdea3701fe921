use std::alloc::{AllocError, Global};
use std::mem;

/// The words of a line, without the comment behind a `#`. Quotes keep what is between them
/// together; in them `\n` is a newline, `\0` a zero byte, and any other character behind a
/// backslash stands for itself.
pub fn words_of(alloc: Global, line: &str) -> Result<Vec<String>, AllocError> {
    let mut reader = WordReader {
        alloc,
        words: Vec::new(alloc),
        word: String::new(alloc),
        place: Place::Between,
    };
    for character in line.chars() {
        reader.take(character)?;
    }
    reader.finish()
}

/// Where a reader stands in its line.
#[derive(Clone, Copy)]
enum Place {
    Between,
    Word,
    Quotes,
    Backslash,
    Comment,
}

/// The words of a line so far, and the one that is being read.
#[derive(Drop)]
struct WordReader {
    alloc: Global,
    words: Vec<String>,
    word: String,
    place: Place,
}

impl WordReader {
    fn take(&mut self, character: char) -> Result<(), AllocError> {
        match self.place {
            Place::Between => self.begin(character),
            Place::Word => self.go_on(character),
            Place::Quotes => self.quote(character),
            Place::Backslash => self.escape(character),
            Place::Comment => Ok(()),
        }
    }

    fn begin(&mut self, character: char) -> Result<(), AllocError> {
        match character {
            ' ' => Ok(()),
            '#' => {
                self.place = Place::Comment;
                Ok(())
            }
            _ => {
                self.place = Place::Word;
                self.go_on(character)
            }
        }
    }

    fn go_on(&mut self, character: char) -> Result<(), AllocError> {
        match character {
            ' ' => self.end(),
            '"' => {
                self.place = Place::Quotes;
                Ok(())
            }
            _ => self.put(character),
        }
    }

    fn quote(&mut self, character: char) -> Result<(), AllocError> {
        match character {
            '"' => {
                self.place = Place::Word;
                Ok(())
            }
            '\\' => {
                self.place = Place::Backslash;
                Ok(())
            }
            _ => self.put(character),
        }
    }

    fn escape(&mut self, character: char) -> Result<(), AllocError> {
        self.place = Place::Quotes;
        match character {
            'n' => self.put('\n'),
            '0' => self.put('\0'),
            _ => self.put(character),
        }
    }

    fn put(&mut self, character: char) -> Result<(), AllocError> {
        self.word.push(character)
    }

    /// Ends the word that is being read.
    fn end(&mut self) -> Result<(), AllocError> {
        let word = mem::replace(&mut self.word, String::new(self.alloc));
        self.place = Place::Between;
        self.words.push(word)?;
        Ok(())
    }

    /// The words of the line that ends here.
    fn finish(mut self) -> Result<Vec<String>, AllocError> {
        if matches!(self.place, Place::Word | Place::Quotes | Place::Backslash) {
            self.end()?;
        }
        Ok(self.words)
    }
}

/// A copy of these words.
pub fn duplicate(alloc: Global, words: &[String]) -> Result<Vec<String>, AllocError> {
    let mut list = Vec::new(alloc);
    for word in words {
        list.push(word.clone()?)?;
    }
    Ok(list)
}

/// A list of these words.
pub fn owned(alloc: Global, words: &[&str]) -> Result<Vec<String>, AllocError> {
    let mut list = Vec::new(alloc);
    for word in words {
        list.push(String::from_str(alloc, word)?)?;
    }
    Ok(list)
}
