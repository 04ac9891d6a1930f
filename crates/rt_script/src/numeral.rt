ghost use Rattle.std.specs.Prelude.{◌≡◌, ◌≤◌, IfSome};
ghost use Rattle.rt_script.specs.Words.{number_upto};
ghost use Rattle.rt_script.specs.Digits.{digits_upto};

/// The number of at most `most` that the word spells: its decimal digits, with no zero before others.
pub fn number(word: &[u8], most: u64) -> Option<u64>
    ensures value { result ≡ number_upto most word.now }
    ensures within { IfSome result (λ n. n ≤ most) }
{
    if word.is_empty() {
        return None;
    }
    if word.len() > 1 && word[0] == b'0' {
        return None;
    }
    digits(word, most)
}

/// The number of at most `most` that digits write, leading zeros among them.
fn digits(word: &[u8], most: u64) -> Option<u64>
    ensures value { result ≡ digits_upto most 0 word.now }
    ensures within { IfSome result (λ n. n ≤ most) }
{
    let mut number: u128 = 0;
    for b in word {
        if !b.is_ascii_digit() {
            return None;
        }
        number = number * 10 + (*b - b'0') as u128;
        if number > most as u128 {
            return None;
        }
    }
    Some(number as u64)
}
