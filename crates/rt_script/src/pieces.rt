ghost use Rattle.std.specs.Prelude.{◌≡◌, ◌==◌, ◌<◌, length, IfSome, List, [], ◌∷◌, MatchOption, position};
ghost use Rattle.std.specs.List.{slice_split};
ghost use Rattle.rt_script.specs.Grammar.{is_end};
ghost use Rattle.rt_script.specs.Judging.{need};
ghost use Rattle.rt_script.specs.Results.{Gives};
ghost use Rattle.rt_script.specs.Words.{one, two, three};
ghost use Rattle.rt_script.specs.declared.fault.Why.TheVariants.{BadLine};

use crate::fault::Why;
use crate::line_error::LineError;
use std::marker::Model;

/// The pieces of a text that are still to be read: what stands between the separators.
#[derive(Drop)]
pub struct Pieces<'a> {
    rest: Option<&'a [u8]>,
    separator: u8,
}

impl<'a> Model for Pieces<'a> {
    ghost use Rattle.std.specs.Prelude.{List, ℕ};

    ghost Value = { List (List ℕ) };

    ghost use Rattle.rt_script.specs.ScriptFields.{pieces_left};

    ghost view = { λ p. pieces_left p.separator p.rest };
}

impl<'a> Pieces<'a> {
    /// All pieces of a text: the words of a line, or the lines of a text and what stands after its last line feed.
    pub fn new(text: &'a [u8], separator: u8) -> Pieces<'a>
        ensures { result ≡ slice_split (λ b. b == separator) text.now }
    {
        Pieces {
            rest: Some(text),
            separator,
        }
    }

    /// Whether nothing is left, or nothing after the last separator.
    pub(crate) fn is_end(&self) -> bool
        ensures { result ≡ is_end self.now }
    {
        match self.rest {
            Some(rest) => rest.is_empty(),
            None => true,
        }
    }

    /// Takes the next piece, where there is one.
    pub fn next(&mut self) -> Option<&'a [u8]>
        ensures { MatchOption result ((self.old ≡ []) × (self.new ≡ []))
            (λ piece. self.old ≡ piece.now ∷ self.new) }
    {
        let text = self.rest.take()?;
        match split_at_byte(text, self.separator) {
            Some((piece, rest)) => {
                self.rest = Some(rest);
                Some(piece)
            }
            None => Some(text),
        }
    }

    /// The word that is left, if it is the only one.
    pub(crate) fn one(mut self) -> Result<&'a [u8], LineError>
        ensures { Gives (λ word. word.now) result (need BadLine (one self.entry)) }
    {
        match (self.next(), self.next()) {
            (Some(a), None) => Ok(a),
            _ => Err(LineError::Fault(Why::BadLine)),
        }
    }

    /// The words that are left, if they are two.
    pub(crate) fn two(mut self) -> Result<(&'a [u8], &'a [u8]), LineError>
        ensures { Gives (λ words. (words.0.now, words.1.now)) result (need BadLine (two self.entry)) }
    {
        match (self.next(), self.next(), self.next()) {
            (Some(a), Some(b), None) => Ok((a, b)),
            _ => Err(LineError::Fault(Why::BadLine)),
        }
    }

    /// The words that are left, if they are three.
    pub(crate) fn three(mut self) -> Result<(&'a [u8], &'a [u8], &'a [u8]), LineError>
        ensures { Gives (λ words. (words.0.now, words.1.now, words.2.now)) result
            (need BadLine (three self.entry)) }
    {
        match (self.next(), self.next(), self.next(), self.next()) {
            (Some(a), Some(b), Some(c), None) => Ok((a, b, c)),
            _ => Err(LineError::Fault(Why::BadLine)),
        }
    }
}

/// The text before the first such byte and the text after it, where there is one.
fn split_at_byte(text: &[u8], byte: u8) -> Option<(&[u8], &[u8])>
    ensures parts { MatchOption result (slice_split (λ b. b == byte) text.now ≡ text.now ∷ [])
        (λ parts. slice_split (λ b. b == byte) text.now
        ≡ parts.0.now ∷ slice_split (λ b. b == byte) parts.1.now) }
    ensures shorter { IfSome result (λ parts. length parts.1.now < length text.now) }
{
    let end = index_of(text, byte)?;
    let (before, rest) = text.split_at(end);
    Some((before, &rest[1..]))
}

/// The index of the first such byte.
fn index_of(text: &[u8], byte: u8) -> Option<usize>
    ensures { result ≡ position (λ b. b == byte) text.now }
{
    text.iter().position(|b| *b == byte)
}
