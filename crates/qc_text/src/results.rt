//! The result of a command.

ghost use Rattle.std.specs.Prelude.{◌≡◌, ◌++◌, OnOk, codes};
ghost use Rattle.qc_text.specs.Parts.{site_text};
ghost use Rattle.qc_text.specs.Pieces.{piece_text};
ghost use Rattle.qc_text.specs.Results.{closed_text, half_text, moved_text, quorum_text, reply_text, response_text};
ghost use Rattle.qc_text.specs.Results.{restarted_text, why_text};

use crate::names::response_name;
use crate::parts::put_set;
use crate::piece::{Piece, put_all};
use qc_decl::Declaration;
use qc_list::{OutOfMemory, Page};
use qc_msg::{AbortCause, Command, Half, Reply};

/// Adds the result of a command.
pub(crate) fn put_reply(
    page: &mut Page,
    decl: &Declaration,
    command: Command,
    reply: Reply,
) -> Result<(), OutOfMemory>
    ensures { OnOk result (page.new ≡ page.old ++ reply_text decl.now command reply) }
{
    match reply {
        Reply::Down => page.put("! down"),
        Reply::Already { tx } => put_with(page, "! already ", Piece::Transaction(tx)),
        Reply::Began { tx } => put_with(page, "", Piece::Transaction(tx)),
        Reply::NoTransaction => page.put("! no transaction"),
        Reply::Doomed => page.put("! doomed"),
        Reply::TooLong => page.put("! too long"),
        Reply::Closed { epoch, site } => put_closed(page, epoch, site),
        Reply::Conflict { tx, site } => put_at(page, "! conflict ", Piece::Transaction(tx), site),
        Reply::Quorum { half, got, need } => put_quorum(page, half, got, need),
        Reply::Absent => page.put("! absent"),
        Reply::Response { resp } => page.put(response_text(decl, command, resp)),
        Reply::Aborted { why } => put_why(page, why),
        Reply::Unknown => page.put("?"),
        Reply::Committed { stamp } => put_with(page, "", Piece::Stamp(stamp)),
        Reply::Dropped => page.put("ok"),
        Reply::Order { current } => put_with(page, "! order ", Piece::Number(current as u64)),
        Reply::InDoubt { tx, site } => put_at(page, "! in doubt ", Piece::Transaction(tx), site),
        Reply::Fault => page.put("! fault"),
        Reply::Moved { closed, installed } => put_moved(page, closed, installed),
    }
}

/// Adds words and a piece.
fn put_with<'a>(page: &mut Page, words: &'a str, piece: Piece<'a>) -> Result<(), OutOfMemory>
    ensures { OnOk result (page.new ≡ page.old ++ (words.now ++ piece_text piece.entry)) }
{
    put_all(page, &[Piece::Words(words), piece])
}

/// Adds words, a piece and a site.
fn put_at<'a>(
    page: &mut Page,
    words: &'a str,
    piece: Piece<'a>,
    site: u8,
) -> Result<(), OutOfMemory>
    ensures { OnOk result (page.new
        ≡ page.old ++ (words.now ++ (piece_text piece.entry ++ (codes " " ++ site_text site)))) }
{
    put_all(
        page,
        &[
            Piece::Words(words),
            piece,
            Piece::Words(" "),
            Piece::Site(site),
        ],
    )
}

/// Adds that a site's epoch is closed, with the one that it told.
fn put_closed(page: &mut Page, epoch: u8, site: u8) -> Result<(), OutOfMemory>
    ensures { OnOk result (page.new ≡ page.old ++ closed_text epoch site) }
{
    put_at(page, "! closed ", Piece::Number(epoch as u64), site)
}

/// Adds the weight that was got, and the one that is needed.
fn put_quorum(page: &mut Page, half: Half, got: u16, need: u16) -> Result<(), OutOfMemory>
    ensures { OnOk result (page.new ≡ page.old ++ quorum_text half got need) }
{
    put_all(
        page,
        &[
            Piece::Words("! quorum "),
            Piece::Words(half_text(half)),
            Piece::Words(" "),
            Piece::Number(got as u64),
            Piece::Words(" of "),
            Piece::Number(need as u64),
        ],
    )
}

/// A response's name, by the object of the command.
fn response_text(decl: &Declaration, command: Command, resp: u8) -> &str
    ensures { result.now ≡ response_text decl.now command resp }
{
    match command {
        Command::Do { object, .. } => response_name(decl, object as usize, resp),
        Command::Begin | Command::Commit | Command::Abort | Command::Epoch { .. } => "",
    }
}

/// The name of a half.
fn half_text(half: Half) -> &'static str
    ensures { result.now ≡ half_text half }
{
    match half {
        Half::Read => "read",
        Half::Append => "append",
        Half::Close => "close",
    }
}

/// Adds why a transaction was aborted.
fn put_why(page: &mut Page, why: AbortCause) -> Result<(), OutOfMemory>
    ensures { OnOk result (page.new ≡ page.old ++ why_text why) }
{
    match why {
        AbortCause::Doomed => page.put("! doomed"),
        AbortCause::Restarted { site, old, new } => put_restarted(page, site, old, new),
        AbortCause::Closed { epoch, site } => put_closed(page, epoch, site),
        AbortCause::Fault { site } => put_with(page, "! fault ", Piece::Site(site)),
        AbortCause::NoAnswer { site } => put_with(page, "! no answer ", Piece::Site(site)),
        AbortCause::Forgot { site } => put_with(page, "! forgot ", Piece::Site(site)),
    }
}

/// Adds a site's life in its first grant, and the one that it is in.
fn put_restarted(page: &mut Page, site: u8, old: u32, new: u32) -> Result<(), OutOfMemory>
    ensures { OnOk result (page.new ≡ page.old ++ restarted_text site old new) }
{
    put_all(
        page,
        &[
            Piece::Words("! restarted "),
            Piece::Site(site),
            Piece::Words(" "),
            Piece::Number(old as u64),
            Piece::Words(" "),
            Piece::Number(new as u64),
        ],
    )
}

/// Adds the sites that closed their epoch, and those that installed the next.
fn put_moved(page: &mut Page, closed: u16, installed: u16) -> Result<(), OutOfMemory>
    ensures { OnOk result (page.new ≡ page.old ++ moved_text closed installed) }
{
    page.put("closed")?;
    put_set(page, closed)?;
    page.put(" installed")?;
    put_set(page, installed)
}
