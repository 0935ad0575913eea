// A text made of pieces.
ghost use Rattle.std.specs.Prelude.{OnOk, OnErr, decimal, flat_map};
ghost use Rattle.std.specs.Io.KnownBytes.{Appends};
ghost use Rattle.status.specs.Pieces.{escaped, octet_text, piece_text};
ghost use Rattle.status.specs.Prefixes.{AppendsPrefix};

use crate::lines::ReportFault;
use crate::put::put;
use std::io::Write;

/// A piece of a text.
#[derive(Clone, Copy)]
pub(crate) enum Piece<'a> {
    /// As it is.
    Text(&'a [u8]),
    /// In decimal digits.
    Number(u64),
    /// As it stands between the quotes of a string.
    Escaped(&'a [u8]),
}

/// Writes pieces, one after another.
pub(crate) fn put_pieces<W: Write>(out: &mut W, pieces: &[Piece<'_>]) -> Result<(), ReportFault>
    ensures whole { OnOk result
        (Appends (W.contents out.old) (W.contents out.new) (flat_map piece_text pieces.now)) }
    ensures prefix { OnErr result
        (AppendsPrefix (W.contents out.old) (W.contents out.new) (flat_map piece_text pieces.now)) }
{
    for piece in pieces {
        put_piece(out, piece)?;
    }
    Ok(())
}

fn put_piece<W: Write>(out: &mut W, piece: &Piece<'_>) -> Result<(), ReportFault>
    ensures whole { OnOk result
        (Appends (W.contents out.old) (W.contents out.new) (piece_text piece.now)) }
    ensures prefix { OnErr result
        (AppendsPrefix (W.contents out.old) (W.contents out.new) (piece_text piece.now)) }
{
    match *piece {
        Piece::Text(text) => put(out, text),
        Piece::Number(value) => put_decimal(out, value),
        Piece::Escaped(text) => put_escaped(out, text),
    }
}

fn put_decimal<W: Write>(out: &mut W, value: u64) -> Result<(), ReportFault>
    ensures whole { OnOk result
        (Appends (W.contents out.old) (W.contents out.new) (decimal value)) }
    ensures prefix { OnErr result
        (AppendsPrefix (W.contents out.old) (W.contents out.new) (decimal value)) }
{
    let mut buffer = itoa::Buffer::new();
    put(out, buffer.format(value).as_bytes())
}

fn put_escaped<W: Write>(out: &mut W, text: &[u8]) -> Result<(), ReportFault>
    ensures whole { OnOk result
        (Appends (W.contents out.old) (W.contents out.new) (escaped text.now)) }
    ensures prefix { OnErr result
        (AppendsPrefix (W.contents out.old) (W.contents out.new) (escaped text.now)) }
{
    for octet in text {
        put_octet(out, *octet)?;
    }
    Ok(())
}

fn put_octet<W: Write>(out: &mut W, octet: u8) -> Result<(), ReportFault>
    ensures whole { OnOk result
        (Appends (W.contents out.old) (W.contents out.new) (octet_text octet)) }
    ensures prefix { OnErr result
        (AppendsPrefix (W.contents out.old) (W.contents out.new) (octet_text octet)) }
{
    if octet == b'"' || octet == b'\\' {
        put(out, &[b'\\', octet])
    } else if octet >= b' ' && octet <= b'~' {
        put(out, &[octet])
    } else {
        put(out, b"?")
    }
}
