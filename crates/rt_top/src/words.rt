ghost use Rattle.std.specs.Prelude.{◌≡◌, ◌↔◌, ◌<◌, length, is_some, slice_index, IsTrue};
ghost use Rattle.rt_script.specs.Words.{number_upto};
ghost use Rattle.rt_top.specs.Words.{bytes_of, command_named, command_of, gen_of, options_after, with_option, no_options};

use crate::options::MAX_TURNS;

// Whether the word begins with a plus.
fn has_plus(word: &[u8]) -> bool
    ensures { IsTrue result ↔ (slice_index word.now 0 ≡ 43) }
{
    !word.is_empty() && word[0] == b'+'
}

// Whether the word begins with a zero and has more digits.
fn leads_with_zero(word: &[u8]) -> bool
    ensures { IsTrue result ↔ (slice_index word.now 0 ≡ 48) × (1 < length word.now) }
{
    word.len() > 1 && word[0] == b'0'
}

/// The number of at most 4,294,967,295 that the word spells, with no sign and no leading zero.
fn number(word: &str) -> Option<u32>
    ensures { result ≡ number_upto MAX_TURNS word.now }
{
    let bytes = word.as_bytes();
    if has_plus(bytes) {
        return None;
    }
    if leads_with_zero(bytes) {
        return None;
    }
    word.parse::<u32>().ok()
}

// Whether the words are an option and its number.
fn is_option(name: &str, word: &str) -> bool
    ensures { result ≡ is_some (with_option no_options name.now word.now) }
{
    name == "--turns" && number(word).is_some()
}

// Whether the words are options.
fn are_options(words: &[String]) -> bool
    ensures { result ≡ is_some (options_after no_options (bytes_of words.now)) }
{
    match words {
        [] => true,
        [name, word] => is_option(name, word),
        _ => false,
    }
}

// Whether the words are a number and options.
fn are_number_and_options(words: &[String]) -> bool
    ensures { result ≡ is_some (gen_of (bytes_of words.now)) }
{
    match words {
        [word, options @ ..] => number(word).is_some() && are_options(options),
        [] => false,
    }
}

// Whether the command takes these words.
fn takes(name: &str, words: &[String]) -> bool
    ensures { result ≡ is_some (command_named name.now (bytes_of words.now)) }
{
    if name == "replay" {
        are_options(words)
    } else if name == "gen" {
        are_number_and_options(words)
    } else {
        name == "check" && words.is_empty()
    }
}

/// Whether the words are taken.
pub fn is_accepted(words: &[String]) -> bool
    ensures { result ≡ is_some (command_of (bytes_of words.now)) }
{
    match words {
        [name, options @ ..] => takes(name, options),
        [] => false,
    }
}
