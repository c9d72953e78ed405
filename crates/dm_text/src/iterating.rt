//! The words of a line, one after the other.

ghost use Rattle.std.specs.Prelude.{◌≡◌, ◌∷◌, [], IfSome, IfNone};
ghost use Rattle.dm_text.specs.Text.{words_of};

use crate::cutting::first_part;
use std::marker::Model;

/// The words of a line, one after the other. It is seen as the list of the words to come.
#[derive(Drop)]
pub struct Words<'a> {
    rest: &'a [u8],
}

impl<'a> Model for Words<'a> {
    ghost use Rattle.std.specs.Prelude.{List, ℕ};
    ghost use Rattle.dm_text.specs.Text.{words_of};

    ghost Value = { List (List ℕ) };

    ghost view = { λ words. words_of words.rest.now };
}

impl<'a> Words<'a> {
    pub fn of(line: &'a [u8]) -> Words<'a>
        ensures { result ≡ words_of line.now }
    {
        Words { rest: line }
    }

    /// The next word, which is never empty. Takes no memory.
    pub fn next(&mut self) -> Option<&'a [u8]>
        ensures some { IfSome result (λ word. self.old ≡ word.now ∷ self.new) }
        ensures none { IfNone result (self.old ≡ []) }
        ensures ended { IfNone result (self.new ≡ []) }
    {
        let mut rest = self.rest;
        while !rest.is_empty() {
            let (part, after) = first_part(rest);
            rest = after;
            if !part.is_empty() {
                self.rest = rest;
                return Some(part);
            }
        }
        self.rest = rest;
        None
    }
}
