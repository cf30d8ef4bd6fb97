//! Where lines, comments and words begin and end.
ghost use Rattle.std.specs.Prelude.{◌≡◌, ◌<◌, ◌≤◌, ◌∷◌, [], length, slice_index, IfSome, IfNone, IsTrue, not, ◌==◌};
ghost use Rattle.std.specs.List.{position_or_len};
ghost use Rattle.std.specs.Str.Lines.{strip_carriage_return};
ghost use Rattle.raid_text.specs.Text.{raw_lines, body_of, has_word, is_sound, words_of, is_blank};
ghost use Rattle.raid_text.specs.Steps.{may_stand};

// The place of the first such byte, or the length where there is none.
fn first_at(bytes: &[u8], byte: u8) -> usize
    ensures place { result ≡ position_or_len (λ b. b == byte) bytes.now }
    ensures within { result ≤ length bytes.now }
{
    bytes.iter().position(|b| *b == byte).unwrap_or(bytes.len())
}

// The first line of a text that isn't empty, and the text behind it.
fn split_line(text: &[u8]) -> (&[u8], &[u8])
    requires { 0 < length text.now }
    ensures lines { raw_lines text.now ≡ result.0.now ∷ raw_lines result.1.now }
    ensures shorter { length result.1.now < length text.now }
{
    let i = first_at(text, b'\n');
    if i < text.len() {
        (&text[..i], &text[i + 1..])
    } else {
        (text, &text[text.len()..])
    }
}

// The line without a byte 13 at its end.
fn without_return(line: &[u8]) -> &[u8]
    ensures { result.now ≡ strip_carriage_return line.now }
{
    if !line.is_empty() && line[line.len() - 1] == b'\r' {
        &line[..line.len() - 1]
    } else {
        line
    }
}

// What stands on a line before its comment.
#[tactic(auto, unfolding(crate::specs::Text::body_of))]
fn body(line: &[u8]) -> &[u8]
    ensures { result.now ≡ body_of line.now }
{
    let line = without_return(line);
    &line[..first_at(line, b'#')]
}

// Whether a byte separates words.
fn is_blank(b: u8) -> bool
    ensures { result ≡ is_blank b }
{
    b == b' ' || b == b'\t'
}

// Whether each byte separates words or may stand in one.
#[tactic(auto, unfolding(crate::specs::Text::is_sound))]
fn is_sound(body: &[u8]) -> bool
    ensures { result ≡ is_sound body.now }
{
    body.iter().all(|b| may_stand(*b))
}

// Whether a byte may stand outside a comment. Letters, digits and most others lie between `#` and 127, so they are told
// first.
fn may_stand(b: u8) -> bool
    ensures { result ≡ may_stand b }
{
    (b'$' <= b && b <= b'~') || b == b' ' || b == b'\t' || b == b'!' || b == b'"'
}

// The place of the first byte that may not stand outside a comment, or the length where there is none.
fn first_odd(bytes: &[u8]) -> usize
    ensures place { result ≡ position_or_len (λ b. not (may_stand b)) bytes.now }
    ensures within { result ≤ length bytes.now }
{
    bytes
        .iter()
        .position(|b| !may_stand(*b))
        .unwrap_or(bytes.len())
}

/// A line that was cut off a text: all of it, what stands before its comment, whether each byte of that separates words
/// or may stand in one, and the text behind the line.
#[derive(Clone, Copy)]
pub(crate) struct Cut<'a> {
    pub(crate) line: &'a [u8],
    pub(crate) body: &'a [u8],
    pub(crate) sound: bool,
    pub(crate) behind: &'a [u8],
}

// The first line of a text that isn't empty, whatever stands on it.
fn cut_any(text: &[u8]) -> Cut<'_>
    requires { 0 < length text.now }
    ensures lines { raw_lines text.now ≡ result.line.now ∷ raw_lines result.behind.now }
    ensures body { result.body.now ≡ body_of result.line.now }
    ensures sound { result.sound ≡ is_sound result.body.now }
    ensures shorter { length result.behind.now < length text.now }
{
    let (line, behind) = split_line(text);
    let body = body(line);
    Cut {
        line,
        body,
        sound: is_sound(body),
        behind,
    }
}

// The first line, which ends there: at the first byte that may not stand outside a comment.
fn cut_plain(text: &[u8], end: usize) -> Cut<'_>
    requires first { end ≡ position_or_len (λ b. not (may_stand b)) text.now }
    requires there { end < length text.now }
    requires ends { slice_index text.now end ≡ 10 }
    ensures lines { raw_lines text.now ≡ result.line.now ∷ raw_lines result.behind.now }
    ensures body { result.body.now ≡ body_of result.line.now }
    ensures sound { result.sound ≡ is_sound result.body.now }
    ensures shorter { length result.behind.now < length text.now }
{
    let line = &text[..end];
    Cut {
        line,
        body: line,
        sound: true,
        behind: &text[end + 1..],
    }
}

/// The first line of a text that isn't empty.
///
/// Most lines end at the first byte that may not stand outside a comment, which one pass finds.
pub(crate) fn cut_line(text: &[u8]) -> Cut<'_>
    requires { 0 < length text.now }
    ensures lines { raw_lines text.now ≡ result.line.now ∷ raw_lines result.behind.now }
    ensures body { result.body.now ≡ body_of result.line.now }
    ensures sound { result.sound ≡ is_sound result.body.now }
    ensures shorter { length result.behind.now < length text.now }
{
    let end = first_odd(text);
    if end < text.len() && text[end] == b'\n' {
        cut_plain(text, end)
    } else {
        cut_any(text)
    }
}

/// Whether a byte doesn't separate words.
#[tactic(auto, unfolding(crate::specs::Text::has_word))]
pub fn has_word(body: &[u8]) -> bool
    ensures { result ≡ has_word body.now }
{
    body.iter().any(|b| !is_blank(*b))
}

// The place of the first blank of a sound line, or the length where there is none: none but blanks stand there of the
// bytes up to a space.
fn first_blank(bytes: &[u8]) -> usize
    requires { IsTrue (is_sound bytes.now) }
    ensures place { result ≡ position_or_len is_blank bytes.now }
    ensures within { result ≤ length bytes.now }
{
    bytes.iter().position(|b| *b <= b' ').unwrap_or(bytes.len())
}

// The place of the first byte of a sound line that is no blank, or the length where there is none.
fn first_other(bytes: &[u8]) -> usize
    requires { IsTrue (is_sound bytes.now) }
    ensures place { result ≡ position_or_len (λ b. not (is_blank b)) bytes.now }
    ensures within { result ≤ length bytes.now }
{
    bytes.iter().position(|b| *b > b' ').unwrap_or(bytes.len())
}

// The text behind the blanks that it begins with.
fn skip_blanks(body: &[u8]) -> &[u8]
    requires { IsTrue (is_sound body.now) }
    ensures same { words_of result.now ≡ words_of body.now }
    ensures within { length result.now ≤ length body.now }
    ensures starts { 0 < length result.now → 0 < position_or_len is_blank result.now }
    ensures sound { IsTrue (is_sound result.now) }
{
    &body[first_other(body)..]
}

// The first word of a sound text that begins with one, and what is behind it.
fn cut_word(body: &[u8]) -> (&[u8], &[u8])
    requires some { 0 < length body.now }
    requires starts { 0 < position_or_len is_blank body.now }
    requires sound { IsTrue (is_sound body.now) }
    ensures words { words_of body.now ≡ result.0.now ∷ words_of result.1.now }
    ensures sound { IsTrue (is_sound result.1.now) }
{
    let end = first_blank(body);
    if end < body.len() {
        (&body[..end], &body[end + 1..])
    } else {
        (body, &body[body.len()..])
    }
}

/// The first word of a sound text, and what is behind it, or none where there is no word.
pub fn split_word(body: &[u8]) -> Option<(&[u8], &[u8])>
    requires { IsTrue (is_sound body.now) }
    ensures word { IfSome result (λ p. words_of body.now ≡ p.0.now ∷ words_of p.1.now) }
    ensures none { IfNone result (words_of body.now ≡ []) }
    ensures sound { IfSome result (λ p. IsTrue (is_sound p.1.now)) }
{
    let body = skip_blanks(body);
    if body.is_empty() {
        None
    } else {
        Some(cut_word(body))
    }
}
