//! What goes through a text: its lines, one of them, and a line's words.
ghost use Rattle.std.specs.Prelude.{◌≡◌, ◌+◌, ◌≤◌, length, IsTrue};
ghost use Rattle.std.specs.List.{list_all};
ghost use Rattle.raid_text.specs.Text.{is_sound, is_word, words_of};

/// The lines of a text that have a word, one after another.
#[derive(Drop)]
pub struct Lines<'a> {
    pub(crate) rest: &'a [u8],
    pub(crate) passed: u32,
    ghost bound: { passed + length rest.now ≤ 16777216 },
}

/// A line that has a word.
#[derive(Clone, Copy)]
pub struct Line<'a> {
    pub(crate) at: u32,
    pub(crate) body: &'a [u8],
    // Whether each byte of it separates words or may stand in one.
    pub(crate) sound: bool,
    ghost told: { sound ≡ is_sound body.now },
}

/// The words of a line, one after another.
#[derive(Drop)]
pub struct Words<'a> {
    pub(crate) rest: &'a [u8],
    ghost words: { IsTrue (list_all is_word (words_of rest.now)) },
    ghost sound: { IsTrue (is_sound rest.now) },
}
