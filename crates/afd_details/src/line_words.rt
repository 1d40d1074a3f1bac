// The words of a line, one after another.
use crate::finding::Finding;
use crate::slot::Slot;
use af_text::{is_word, next_word};

/// The words of a line that are left, and how many were taken.
#[derive(Clone, Copy)]
pub(crate) struct LineWords<'a> {
    rest: &'a [u8],
    taken: u32,
}

impl<'a> LineWords<'a> {
    /// All words of a line.
    pub fn new(line: &'a [u8]) -> LineWords<'a> {
        LineWords {
            rest: line,
            taken: 0,
        }
    }

    /// What is left of the line.
    pub fn rest(&self) -> &'a [u8] {
        self.rest
    }

    /// The next word.
    pub fn next(&mut self) -> Option<&'a [u8]> {
        let (word, rest) = next_word(self.rest)?;
        self.rest = rest;
        self.taken = self.taken.saturating_add(1);
        Some(word)
    }

    /// The next word, which stays.
    pub fn peek(&self) -> Option<&'a [u8]> {
        match next_word(self.rest) {
            Some((word, _)) => Some(word),
            None => None,
        }
    }

    /// Takes the next word if it is this one, and says whether it is.
    pub fn skip(&mut self, wanted: &[u8]) -> bool {
        match self.peek() {
            Some(word) if is_word(word, wanted) => {
                let _ = self.next();
                true
            }
            _ => false,
        }
    }

    /// Takes the next word, if it may stand in this place.
    pub fn take(&mut self, slot: Slot) -> Result<&'a [u8], Finding<'a>> {
        match self.peek() {
            Some(word) if slot.takes(word) => {
                let _ = self.next();
                Ok(word)
            }
            _ => Err(self.finding(slot)),
        }
    }

    /// The next word, or that there is none, in a place where this may stand.
    pub fn finding(&self, slot: Slot) -> Finding<'a> {
        Finding {
            place: self.taken.saturating_add(1),
            word: self.peek(),
            slot,
        }
    }

    /// No word may be left.
    pub fn end(&self, slot: Slot) -> Result<(), Finding<'a>> {
        match self.peek() {
            None => Ok(()),
            Some(_) => Err(self.finding(slot)),
        }
    }
}
