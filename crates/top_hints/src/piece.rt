//! Lines, put together of pieces.
ghost use Rattle.std.specs.Prelude.{◌≡◌, ◌++◌, IfOk, OnOk, codes, flat_map};
ghost use Rattle.top_hints.specs.Line.{piece_text, shown, shown_byte};

use itoa::Buffer;
use std::alloc::{AllocError, Global};

/// A piece of a line.
#[derive(Clone, Copy)]
pub(crate) enum Piece<'a> {
    /// Words of the program's own.
    Words(&'static str),
    /// A number in decimal.
    Number(u64),
    /// A name or a word of the call, or what the system said.
    Shown(&'a str),
}

fn shown_byte(byte: u8) -> u8
    ensures { result ≡ shown_byte byte }
{
    if byte < 32 || byte == 127 { b'?' } else { byte }
}

// Adds a text as it is shown.
fn add_shown(line: &mut Vec<u8>, text: &[u8]) -> Result<(), AllocError>
    ensures { OnOk result (line.new.items ≡ line.old.items ++ shown text.now) }
{
    for byte in text {
        line.push(shown_byte(*byte))?;
    }
    Ok(())
}

fn add(line: &mut Vec<u8>, piece: Piece<'_>) -> Result<(), AllocError>
    ensures { OnOk result (line.new.items ≡ line.old.items ++ piece_text piece.entry) }
{
    match piece {
        Piece::Words(words) => Ok(line.extend_from_slice(words.as_bytes())?),
        Piece::Number(number) => {
            Ok(line.extend_from_slice(Buffer::new().format(number).as_bytes())?)
        }
        Piece::Shown(name) => add_shown(line, name.as_bytes()),
    }
}

/// The line of these pieces, behind the program's name.
pub(crate) fn line(alloc: Global, pieces: &[Piece<'_>]) -> Result<Vec<u8>, AllocError>
    ensures { IfOk result (λ line. line.items
        ≡ codes "raidctl: " ++ flat_map piece_text pieces.now ++ codes "\n") }
{
    let mut line = Vec::new(alloc);
    line.extend_from_slice(b"raidctl: ")?;
    for piece in pieces {
        add(&mut line, *piece)?;
    }
    line.push(b'\n')?;
    Ok(line)
}
