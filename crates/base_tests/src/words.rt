//! What texts, words and digits are read as.
ghost use Rattle.std.specs.Prelude.{◌≤◌, length};

use crate::judging::same;
use raid_text::{Line, Lines, number, pattern};
use std::alloc::{AllocError, Global};
use std::process::Abort;
use std::test::Fail;

// Each line as its number and its words, or as `?` where it isn't sound, and then the number of all.
fn listing(alloc: Global, text: &[u8]) -> Result<String, AllocError>
    requires { length text.now ≤ 16777216 }
{
    let mut out = String::new(alloc);
    let mut lines = Lines::new(text);
    for _ in 0..100 {
        let Some(line) = lines.next() else {
            break;
        };
        write!(out, "{}:", line.at())?;
        add_words(&mut out, &line)?;
    }
    write!(out, "{}", lines.passed())?;
    Ok(out)
}

fn add_words(out: &mut String, line: &Line) -> Result<(), AllocError> {
    if !line.sound() {
        return out.push_str("? ");
    }
    let mut words = line.words();
    for i in 0..100 {
        let Some(word) = words.next() else {
            break;
        };
        if line.word(i) != Some(word) {
            out.push_str("!")?;
        }
        for b in word {
            out.push(char::from(*b))?;
        }
        out.push(' ')?;
    }
    Ok(())
}

fn is_listed(rt: &impl Abort, alloc: Global, text: &[u8], want: &str) -> Result<(), Fail> {
    assert!(rt; text.len() < 100);
    same(rt, listing(alloc, text)?.as_str(), want);
    Ok(())
}

#[test]
fn lines_comments_and_words(rt: HostRuntime) -> Result<(), Fail> {
    const CASES: &[(&[u8], &str)] = &[
        (b"", "0"),
        (b"\n", "1"),
        (b"a", "1:a 1"),
        (b"a\nb", "1:a 2:b 2"),
        (b"a\nb\n", "1:a 2:b 2"),
        (b"\n \t \n# a\nb\n\n", "4:b 5"),
        (b" a\t\tbc  ~! #d e\r", "1:a bc ~! 1"),
        (b"a#b\xff\x00", "1:a 1"),
        (b"a\r\nb\r", "1:a 2:b 2"),
        (b"a\r\r\n", "1:? 1"),
        (b"a\rb\n", "1:? 1"),
        (b"\r\r\n\r", "1:? 2"),
        (b"a\x0bb\nc\x7f\nd\x80\n\x00\n", "1:? 2:? 3:? 4:? 4"),
    ];
    for row in CASES {
        let (text, want) = *row;
        is_listed(&rt, rt.alloc(), text, want)?;
    }
    Ok(())
}

#[test]
fn numbers_have_up_to_ten_digits(rt: HostRuntime) {
    const CASES: &[(&[u8], Option<u32>)] = &[
        (b"0", Some(0)),
        (b"0000000007", Some(7)),
        (b"00000000007", None),
        (b"4294967295", Some(4294967295)),
        (b"4294967296", None),
        (b"9999999999", None),
        (b"", None),
        (b"-1", None),
        (b"+1", None),
        (b"1a", None),
        (b"0x1", None),
    ];
    for row in CASES {
        let (word, want) = *row;
        same(&rt, number(word), want);
    }
}

// The digits are read as these bytes, or as none.
fn is_read_as(rt: &impl Abort, digits: &[u8], want: Option<&[u8]>) {
    match pattern(digits) {
        Some(found) => {
            let len = usize::from(found.len);
            assert!(rt; len <= 32);
            let bytes = found.bytes;
            same(rt, Some(&bytes[..len]), want);
        }
        None => same(rt, want.is_none(), true),
    }
}

#[test]
fn patterns_have_a_power_of_two_of_bytes(rt: HostRuntime) -> Result<(), Fail> {
    const CASES: &[(&[u8], Option<&[u8]>)] = &[
        (b"a5", Some(b"\xa5")),
        (b"A5f0", Some(b"\xa5\xf0")),
        (b"00112233", Some(b"\x00\x11\x22\x33")),
        (
            b"0123456789abcDEF",
            Some(b"\x01\x23\x45\x67\x89\xab\xcd\xef"),
        ),
        (
            b"000102030405060708090a0b0c0d0e0f",
            Some(b"\x00\x01\x02\x03\x04\x05\x06\x07\x08\x09\x0a\x0b\x0c\x0d\x0e\x0f"),
        ),
        (b"", None),
        (b"a", None),
        (b"abc", None),
        (b"abcdef", None),
        (b"0g", None),
        (b"0x", None),
        (b" 5", None),
        (b"0123456789abcdef01", None),
    ];
    for row in CASES {
        let (word, want) = *row;
        is_read_as(&rt, word, want);
    }
    Ok(())
}

#[test]
fn the_longest_pattern_has_thirty_two_bytes(rt: HostRuntime) -> Result<(), Fail> {
    let longest = [b'7'; 64];
    let Some(found) = pattern(&longest) else {
        return Err(Fail::from("64 digits"));
    };
    let bytes = found.bytes;
    same(&rt, bytes, [0x77; 32]);
    same(&rt, found.len, 32);
    Ok(())
}

// A million words.
fn sevens(alloc: Global) -> Result<Vec<u8>, Fail> {
    let mut text = Vec::new(alloc);
    for _ in 0..1_000_000 {
        text.push(b'7')?;
        text.push(b' ')?;
    }
    Ok(text)
}

// How many words the line has, which is sound; 0 where there are more than a million.
fn count_words(rt: &impl Abort, line: &Line) -> usize {
    assert!(rt; line.sound());
    let mut words = line.words();
    for i in 0..1_000_001 {
        if words.next().is_none() {
            return i;
        }
    }
    0
}

#[test]
fn a_long_line_is_read_in_one_go(rt: HostRuntime) -> Result<(), Fail> {
    let text = sevens(rt.alloc())?;
    assert!(rt; text.len() == 2_000_000);
    let mut lines = Lines::new(&text);
    let line = lines.next().ok_or("no line")?;
    same(&rt, count_words(&rt, &line), 1_000_000);
    Ok(())
}
