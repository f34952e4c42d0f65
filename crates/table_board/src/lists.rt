// What is done with the list of one side of a table board.
ghost use Rattle.std.specs.Prelude.{◌≡◌, ◌<◌, length};
ghost use Rattle.ranking.specs.Lists.{lines_of};
ghost use Rattle.ranking.specs.Place.{Found};
ghost use Rattle.market.specs.States.{venue_is};
ghost use Rattle.market.specs.Quotes.{without, requoted};
ghost use Rattle.table_board.specs.Quoting.{TakenFrom};

use crate::table::QuotationList;
use market::types::{Quotation, Refusal, Side};

// The place of a venue's line, if it has one.
fn find_line(lines: &QuotationList, venue: u32) -> Option<usize>
    ensures { Found (venue_is venue) (lines_of lines.now) result }
{
    lines.find(|q| q.venue == venue)
}

// Takes shares from a venue's line, which is lessened where it stands and goes once it has none left.
pub fn take_from(lines: &mut QuotationList, venue: u32, shares: u32) -> Result<(), Refusal>
    ensures { TakenFrom venue shares (lines_of lines.old) (lines_of lines.new) result }
{
    let place = find_line(lines, venue).ok_or(Refusal::NoSuchLine)?;
    let line = lines.line_mut(place);
    if shares == 0 || line.size < shares {
        return Err(Refusal::NoSuchLine);
    }
    if shares < line.size {
        line.size -= shares;
    } else {
        lines.remove(place);
    }
    Ok(())
}

// Drops a venue's line, if it has one.
fn drop_line(lines: &mut QuotationList, venue: u32)
    ensures { lines_of lines.new ≡ without venue (lines_of lines.old) }
{
    if let Some(place) = find_line(lines, venue) {
        lines.remove(place);
    }
}

// Puts a venue's line in place of the one that it had; a size of 0 is no line.
pub fn requote(lines: &mut QuotationList, side: Side, q: Quotation)
    requires { length (without q.venue (lines_of lines.old)) < 64 }
    ensures { lines_of lines.new ≡ requoted side q (lines_of lines.old) }
{
    drop_line(lines, q.venue);
    if q.size != 0 {
        lines.insert(&side, q);
    }
}
