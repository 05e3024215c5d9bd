//! The words of a line.
ghost use Rattle.std.specs.Prelude.{◌≡◌, ℕ, IfOk, decimal, drop, length, map};
ghost use Rattle.mls_deriv.specs.Forms.{IsWord};
ghost use Rattle.mls_deriv.specs.inner.Clauses.{line_parts};
ghost use Rattle.mls_deriv.specs.inner.Guesses.{value_of, word_at, value_at, values_until};

use itoa::Buffer;
use mls_base::list::List;
use mls_base::memory::Memory;
use std::alloc::{AllocError, Global};
use std::marker::Model;

/// The words of a line, which is cut at each space. Contracts see the list of their bytes.
#[derive(Drop)]
pub struct Words<'a> {
    words: Vec<&'a [u8]>,
}

impl<'a> Model for Words<'a> {
    ghost use Rattle.std.specs.Prelude.{List, ℕ, map};

    ghost Value = { List (List ℕ) };

    ghost view = { λ w. map (λ word. word.now) w.words.items };
}

impl<'a> Words<'a> {
    /// The words of this line.
    ///
    /// # Errors
    ///
    /// `Memory` where memory is wanting.
    pub fn of(alloc: Global, line: &'a [u8]) -> Result<Words<'a>, Memory>
        ensures { IfOk result (λ words. words ≡ line_parts line.now) }
    {
        let words = split_at_spaces(alloc, line)?;
        Ok(Words { words })
    }

    /// How many words there are.
    pub fn len(&self) -> usize
        ensures { result ≡ length self.now }
    {
        self.words.len()
    }

    /// The word of this number; past the end it is empty.
    pub fn word(&self, i: usize) -> &'a [u8]
        ensures { result.now ≡ word_at self.now i }
    {
        if i < self.words.len() {
            self.words[i]
        } else {
            b""
        }
    }

    /// The number that the word of this number spells; it is 0 for a word that spells none.
    pub fn value(&self, i: usize) -> usize
        ensures { result ≡ value_at self.now i }
    {
        value_of(self.word(i))
    }

    /// The numbers that the words from this one on spell, up to the word `stop`.
    ///
    /// # Errors
    ///
    /// `Memory` where memory is wanting.
    pub fn values_until(
        &self,
        alloc: Global,
        first: usize,
        stop: &[u8],
    ) -> Result<List<usize>, Memory>
        ensures { IfOk result (λ values. values ≡ values_until stop.now (drop first self.now)) }
    {
        let mut values = List::new(alloc);
        for i in first..self.words.len() {
            let word = self.word(i);
            if word == stop {
                return Ok(values);
            }
            values.push(value_of(word))?;
        }
        Ok(values)
    }
}

// The parts of a line between spaces.
fn split_at_spaces(alloc: Global, line: &[u8]) -> Result<Vec<&[u8]>, AllocError>
    ensures { IfOk result (λ parts. map (λ part. part.now) parts.items ≡ line_parts line.now) }
{
    line.split(|byte| *byte == b' ').collect(alloc)
}

// The number that the word spells; it is 0 for a word that spells none.
fn value_of(word: &[u8]) -> usize
    ensures { result ≡ value_of word.now }
{
    let value = digits_of(word);
    if Buffer::new().format(value).as_bytes() == word {
        value
    } else {
        0
    }
}

// The value of the digits of a word that is a number.
fn digits_of(word: &[u8]) -> usize
    ensures { (n : ℕ) → IsWord n → word.now ≡ decimal n → result ≡ n }
{
    let mut value: usize = 0;
    for byte in word {
        let digit = usize::from(byte.saturating_sub(b'0'));
        value = value.wrapping_mul(10).wrapping_add(digit);
    }
    value
}
