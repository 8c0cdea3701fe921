/// A line: a word, numbers behind it, and the text behind the second one.
#[derive(Clone, Copy)]
pub struct Line<'a> {
    pub name: &'a str,
    pub first: u32,
    pub second: u32,
    pub rest: &'a str,
}

impl<'a> Line<'a> {
    /// None where the words behind the first one are no numbers.
    pub fn read(text: &'a str) -> Option<Line<'a>> {
        let (name, rest) = first_of(text);
        let (first, rest) = first_of(rest);
        let (second, rest) = first_of(rest);
        Some(Line {
            name,
            first: number(first)?,
            second: number(second)?,
            rest,
        })
    }

    /// The third number, 0 where there is none.
    pub fn third(&self) -> u64 {
        self.rest.parse::<u64>().unwrap_or(0)
    }
}

/// A first word, and the text behind the space after it.
fn first_of(text: &str) -> (&str, &str) {
    text.split_once(' ').unwrap_or((text, ""))
}

fn number(word: &str) -> Option<u32> {
    if word.is_empty() {
        return Some(0);
    }
    word.parse::<u32>().ok()
}
