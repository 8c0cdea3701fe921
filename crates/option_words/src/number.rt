ghost use Rattle.std.specs.Prelude.{◌≡◌, ◌≤◌, ◌<◌, ◌^◌, ℕ, IfSome, IfNone};
ghost use Rattle.std.specs.Fmt.{decimal};

/// The number in a word, if it is from `least` to `greatest`. It is decimal, without a sign and without
/// leading zeros.
pub fn number_in(word: &str, least: u32, greatest: u32) -> Option<u32>
    ensures some { IfSome result (λ n. (least ≤ n) × (n ≤ greatest) × (word.now ≡ decimal n)) }
    ensures none { IfNone result ((n : ℕ) → least ≤ n → n ≤ greatest → word.now ≡ decimal n → ⊥) }
{
    let number = decimal_in(word)?;
    if number < least {
        return None;
    }
    if greatest < number {
        return None;
    }
    Some(number)
}

/// The number in a word that is just as the number is written.
pub fn decimal_in(word: &str) -> Option<u32>
    ensures some { IfSome result (λ n. word.now ≡ decimal n) }
    ensures small { IfSome result (λ n. n < 2 ^ 32) }
    ensures none { IfNone result ((n : ℕ) → n < 2 ^ 32 → word.now ≡ decimal n → ⊥) }
{
    if word == "0" {
        return Some(0);
    }
    // `parse` takes a sign and leading zeros too.
    let first = word.as_bytes().first()?;
    if *first <= b'0' {
        return None;
    }
    let number = word.parse::<u32>().ok()?;
    Some(number)
}
