//! Pieces of a line, added to a page.

ghost use Rattle.std.specs.Prelude.{◌≡◌, ◌++◌, OnOk, codes, decimal};
ghost use Rattle.qc_text.specs.Parts.{stamp_text, transaction_text};
ghost use Rattle.qc_text.specs.Pieces.{pieces_text, piece_text};

use itoa::Buffer;
use qc_list::{OutOfMemory, Page};
use qc_stamp::{Stamp, TxId};

/// A part of a line.
#[derive(Clone, Copy)]
pub(crate) enum Piece<'a> {
    /// These words.
    Words(&'a str),
    /// A number, in decimal.
    Number(u64),
    /// A site, as `s0`.
    Site(u8),
    /// A transaction, as `0.1.1`.
    Transaction(TxId),
    /// A stamp, as `1.0`.
    Stamp(Stamp),
}

/// Adds pieces, one after another.
pub(crate) fn put_all(page: &mut Page, pieces: &[Piece<'_>]) -> Result<(), OutOfMemory>
    ensures { OnOk result (page.new ≡ page.old ++ pieces_text pieces.now) }
{
    'pieces: for piece in pieces {
        put_piece(page, piece)?;
    }
    Ok(())
}

/// Adds a piece.
fn put_piece(page: &mut Page, piece: &Piece<'_>) -> Result<(), OutOfMemory>
    ensures { OnOk result (page.new ≡ page.old ++ piece_text piece.now) }
{
    match piece {
        Piece::Words(words) => page.put(words),
        Piece::Number(number) => put_number(page, *number),
        Piece::Site(site) => put_after(page, "s", *site as u64),
        Piece::Transaction(tx) => put_transaction(page, *tx),
        Piece::Stamp(stamp) => put_stamp(page, *stamp),
    }
}

/// Adds a number.
fn put_number(page: &mut Page, number: u64) -> Result<(), OutOfMemory>
    ensures { OnOk result (page.new ≡ page.old ++ decimal number) }
{
    let mut digits = Buffer::new();
    page.put(digits.format(number))
}

/// Adds words and a number.
fn put_after(page: &mut Page, words: &str, number: u64) -> Result<(), OutOfMemory>
    ensures { OnOk result (page.new ≡ page.old ++ (words.now ++ decimal number)) }
{
    page.put(words)?;
    put_number(page, number)
}

/// Adds a transaction.
fn put_transaction(page: &mut Page, tx: TxId) -> Result<(), OutOfMemory>
    ensures { OnOk result (page.new ≡ page.old ++ transaction_text tx) }
{
    put_number(page, tx.client as u64)?;
    put_after(page, ".", tx.life as u64)?;
    put_after(page, ".", tx.number as u64)
}

/// Adds a stamp.
fn put_stamp(page: &mut Page, stamp: Stamp) -> Result<(), OutOfMemory>
    ensures { OnOk result (page.new ≡ page.old ++ stamp_text stamp) }
{
    put_number(page, stamp.clock)?;
    put_after(page, ".", stamp.client as u64)
}
