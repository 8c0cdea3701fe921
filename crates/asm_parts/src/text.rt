ghost use Rattle.std.specs.Prelude.{◌≡◌, ◌<◌, ◌≤◌, length};
ghost use Rattle.std.specs.Option.{option_map};
ghost use Rattle.std.specs.List.{list_all};
ghost use Rattle.asm_parts.specs.Texts.{cut, without_spaces, without_first, without_last, begins_name, is_name, is_name_byte, name_in};

/// What stands before the first such character and what behind it, if there is one.
pub fn cut(text: &str, at: char) -> Option<(&str, &str)>
    requires { at < 128 }
    ensures { option_map (λ parts. (parts.0.now, parts.1.now)) result ≡ cut at text.now }
{
    text.split_once(at)
}

/// The text without the spaces at its start.
pub fn without_spaces(text: &str) -> &str
    ensures { result.now ≡ without_spaces text.now }
{
    text.trim_start_matches(' ')
}

/// The text behind this character at its start, if it starts so.
#[tactic(auto, unfolding(crate::specs::Texts::without_first))]
pub fn without_first(text: &str, first: char) -> Option<&str>
    requires { first < 128 }
    ensures { option_map (λ rest. rest.now) result ≡ without_first first text.now }
{
    text.strip_prefix(first)
}

/// The text before this character at its end, if it ends so.
pub fn without_last(text: &str, last: char) -> Option<&str>
    requires { last < 128 }
    ensures { option_map (λ front. front.now) result ≡ without_last last text.now }
{
    text.strip_suffix(last)
}

/// Whether the text is a name: letters, digits, `_` and `.`, and no digit first.
#[tactic(auto, unfolding(crate::specs::Texts::is_name))]
pub fn is_name(text: &str) -> bool
    ensures { result ≡ is_name text.now }
{
    if !begins_name(text.as_bytes()) {
        return false;
    }
    has_name_bytes(text.as_bytes())
}

fn begins_name(text: &[u8]) -> bool
    ensures { result ≡ begins_name text.now }
{
    match text {
        [] => false,
        [first, ..] => !first.is_ascii_digit(),
    }
}

fn has_name_bytes(text: &[u8]) -> bool
    ensures { result ≡ list_all is_name_byte text.now }
{
    text.iter().all(|byte| is_name_byte(*byte))
}

fn is_name_byte(byte: u8) -> bool
    ensures { result ≡ is_name_byte byte }
{
    byte.is_ascii_alphanumeric() || byte == b'_' || byte == b'.'
}

/// The text, if it is a name.
pub fn name_in(text: &str) -> Option<&str>
    ensures { option_map (λ name. name.now) result ≡ name_in text.now }
{
    if is_name(text) { Some(text) } else { None }
}
