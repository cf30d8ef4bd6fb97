//! Reading a text line by line, and a line word by word.
ghost use Rattle.std.specs.Prelude.{◌≡◌, ◌≤◌, ◌∷◌, [], length, option_map, slice_get, IfSome, IfNone, IsTrue};
ghost use Rattle.raid_text.specs.Seen.{left, line_count, passed_count, seen, words_left};
ghost use Rattle.raid_text.specs.Text.{is_sound, is_word, lines_in, raw_lines, words_of};

use crate::cuts::{cut_line, has_word, split_word};
use crate::readers::{Line, Lines, Words};

impl<'a> Lines<'a> {
    /// The lines of a text of at most 16,777,216 bytes.
    #[tactic(auto, unfolding(crate::specs::Seen::left, crate::specs::Seen::line_count))]
    pub fn new(text: &'a [u8]) -> Lines<'a>
        requires { length text.now ≤ 16777216 }
        ensures left { left result ≡ lines_in text.entry.now }
        ensures passed { passed_count result ≡ 0 }
        ensures count { line_count result ≡ length (raw_lines text.entry.now) }
    {
        Lines {
            rest: text,
            passed: 0,
        }
    }

    /// The next line that has a byte other than a space or a tab outside a comment, or none exactly
    /// where no such line is left.
    #[tactic(auto, unfolding(crate::specs::Seen::left, crate::specs::Seen::line_count, crate::specs::Text::numbered, crate::specs::Text::raw_lines))]
    pub fn next(&mut self) -> Option<Line<'a>>
        ensures some { IfSome result (λ line. left self.old ≡ seen line ∷ left self.new) }
        ensures at { IfSome result (λ line. passed_count self.new ≡ (seen line).at) }
        ensures none { IfNone result ((left self.old ≡ []) × (left self.new ≡ [])) }

        // After the last line all lines were passed.
        ensures end { IfNone result (passed_count self.new ≡ line_count self.new) }
        ensures same { line_count self.new ≡ line_count self.old }
    {
        while !self.rest.is_empty() {
            let line = cut_line(self.rest);
            self.rest = line.behind;
            self.passed += 1;
            if has_word(line.body) {
                return Some(Line {
                    at: self.passed,
                    body: line.body,
                    sound: line.sound,
                });
            }
        }
        None
    }

    /// How many lines were passed so far, those without a word too; after `next` answered none, the
    /// number of all lines.
    pub fn passed(&self) -> u32
        ensures { result ≡ passed_count self.now }
    {
        self.passed
    }
}

impl<'a> Line<'a> {
    /// The line's number, from 1.
    pub fn at(&self) -> u32
        ensures { result ≡ (seen self.now).at }
    {
        self.at
    }

    /// Whether each byte outside a comment separates words or may stand in one.
    pub fn sound(&self) -> bool
        ensures { result ≡ is_sound (seen self.now).body }
    {
        self.sound
    }

    /// The words of a sound line, one after another.
    #[tactic(auto, unfolding(crate::specs::Seen::words_left))]
    pub fn words(&self) -> Words<'a>
        requires { IsTrue (is_sound (seen self.now).body) }
        ensures { words_left result ≡ words_of (seen self.now).body }
    {
        Words { rest: self.body }
    }

    /// The word at place i of a sound line, from 0, or none exactly where it has no more than i.
    ///
    /// It goes over the line from its start: [`Line::words`] reads them all in one go.
    pub fn word(&self, i: usize) -> Option<&'a [u8]>
        requires { IsTrue (is_sound (seen self.now).body) }
        ensures { option_map (λ w. w.now) result ≡ slice_get (words_of (seen self.now).body) i }
    {
        let mut words = self.words();
        for _ in 0..i {
            words.next()?;
        }
        words.next()
    }
}

impl<'a> Words<'a> {
    /// The next word, or none exactly where none is left.
    #[tactic(auto, unfolding(crate::specs::Seen::words_left))]
    pub fn next(&mut self) -> Option<&'a [u8]>
        ensures some { IfSome result (λ w. words_left self.old ≡ w.now ∷ words_left self.new) }
        ensures word { IfSome result (λ w. IsTrue (is_word w.now)) }
        ensures none { IfNone result ((words_left self.old ≡ []) × (words_left self.new ≡ [])) }
    {
        match split_word(self.rest) {
            Some((word, more)) => {
                self.rest = more;
                Some(word)
            }
            None => None,
        }
    }
}
