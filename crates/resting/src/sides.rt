// What a trade and a cut do to one side.
ghost use Rattle.std.specs.Prelude.{◌≡◌, ◌<◌, ◌≤◌, length};
ghost use Rattle.ranking.specs.Lists.{lines_of};
ghost use Rattle.market.specs.Orders.{traded};
ghost use Rattle.resting.specs.Sides.{first_shown, less_first, settle_first, trim_at, total_at};

use crate::orders::RestingList;
use market::types::Side;

// Lessens the first order where it rests.
fn lessen_first(list: &mut RestingList, k: u32)
    requires some { 0 < length (lines_of list.old) }
    requires few { k ≤ first_shown (lines_of list.old) }
    ensures { lines_of list.new ≡ less_first k (lines_of list.old) }
{
    let first = list.line_mut(0);
    first.shown -= k;
}

// The first order, once lessened, is refreshed behind its price, goes, or stays where it rests.
fn settle(list: &mut RestingList, side: Side)
    ensures { lines_of list.new ≡ settle_first side (lines_of list.old) }
{
    if let Some(first) = list.first() {
        if first.is_due() {
            list.remove(0);
            list.insert(&side, first.refreshed());
        } else if first.shown == 0 {
            list.remove(0);
        }
    }
}

// Trades k shares with the first order of a side.
pub(crate) fn trade_first(list: &mut RestingList, side: Side, k: u32)
    requires { k ≤ first_shown (lines_of list.old) }
    ensures { lines_of list.new ≡ traded side k (lines_of list.old) }
{
    if !list.is_empty() {
        lessen_first(list, k);
        settle(list, side);
    }
}

// Cuts k shares of the order at a place: held shares first, then displayed ones. It keeps its place.
pub(crate) fn trim_line(list: &mut RestingList, place: usize, k: u32)
    requires place { place < length (lines_of list.old) }
    requires few { k < total_at place (lines_of list.old) }
    ensures { lines_of list.new ≡ trim_at place k (lines_of list.old) }
{
    let line = list.line_mut(place);
    let from_held = k.min(line.held);
    line.held -= from_held;
    line.shown -= k - from_held;
}
