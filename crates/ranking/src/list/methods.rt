// What is done with a ranked list.
ghost use Rattle.std.specs.Prelude.{◌≡◌, ◌<◌, ◌≤◌, Bool, true, not, [], length, IfOk, slice_index_or, ◌==◌, nat_le};
ghost use Rattle.std.specs.List.{insert, remove, slice_get};
ghost use Rattle.ranking.specs.Place.{head_of, every, place, behind, in_rank, Found};
ghost use Rattle.ranking.specs.Lists.{lines_of, most_of, store_of, with_line};
ghost use Rattle.ranking.specs.Tests.{Tests, FirstAnswered, NoneAnswered};
ghost use Rattle.std.specs.Borrow.{sem, follows};
ghost use Rattle.ranking.specs.contracts.list.RankedList.{the_row};

use super::RankedList;
use crate::limit::Limit;
use crate::rank::Rank;
use std::alloc::{AllocError, Global};

// Where x is to go: before the first line that it stands before. A loop, since std's `position` takes longer for each line.
fn place_of<T, R: Rank<T>>(lines: &[T], by: &R, x: &T) -> usize
    ensures within { result ≤ length lines.now }
    ensures place { insert lines.now result x.now ≡ place (R.before by.now) x.now lines.now }
{
    for (i, y) in lines.iter().enumerate() {
        if by.stands_before(x, y) {
            return i;
        }
    }
    lines.len()
}

impl<T, L: Limit> RankedList<T, L> {
    // An empty list, or a failure for want of memory.
    pub fn make(heap: Global, limit: L) -> Result<RankedList<T, L>, AllocError>
    where
        L: Drop,
        ensures { IfOk result (λ l. (lines_of l ≡ []) × (most_of l ≡ L.most limit)) }
    {
        let lines = Vec::with_capacity(heap, limit.most())?;
        Ok(RankedList { lines, limit })
    }

    pub fn len(&self) -> usize
        ensures { result ≡ length (lines_of self.now) }
    {
        self.lines.len()
    }

    pub fn is_empty(&self) -> bool
        ensures { result ≡ (length (lines_of self.now) == 0) }
    {
        self.lines.is_empty()
    }

    // Whether it takes no more lines.
    pub fn is_full(&self) -> bool
        ensures { result ≡ nat_le (most_of self.now) (length (lines_of self.now)) }
    {
        self.lines.len() >= self.limit.most()
    }

    // The lines, in rank.
    pub fn as_slice(&self) -> &[T]
        ensures { result.now ≡ lines_of self.now }
    {
        self.lines.as_slice()
    }

    // The line at a place, or none past the end.
    pub fn line(&self, place: usize) -> Option<T>
    where
        T: Copy,
        ensures { result ≡ slice_get (lines_of self.now) place }
    {
        self.lines.get(place).copied()
    }

    // The line at a place.
    pub fn line_at(&self, place: usize) -> T
    where
        T: Copy,
        requires { place < length (lines_of self.now) }
        ensures { (d : T) → result ≡ slice_index_or (lines_of self.now) place d }
    {
        self.lines[place]
    }

    // The first line, if there is one.
    pub fn first(&self) -> Option<T>
    where
        T: Copy,
        ensures { result ≡ head_of (lines_of self.now) }
    {
        self.lines.first().copied()
    }

    // The place of the first line that passes a test.
    pub fn find<F: Fn(&T) -> bool>(&self, test: F) -> Option<usize>
        requires { F.IsAlwaysCallable test }
        ensures answered { FirstAnswered F.Fn test (lines_of self.now) result }
        ensures found { (t : T → Bool) → Tests F.Fn test t → Found t (lines_of self.now) result }
    {
        // A loop, since std's `position` takes longer for each line.
        for (place, line) in self.lines.iter().enumerate() {
            if test(line) {
                return Some(place);
            }
        }
        None
    }

    // Whether no line passes a test.
    pub fn lacks<F: Fn(&T) -> bool>(&self, test: F) -> bool
        requires { F.IsAlwaysCallable test }
        ensures answered { NoneAnswered F.Fn test (lines_of self.now) result }
        ensures none { (t : T → Bool) → Tests F.Fn test t → result ≡ every (λ x. not (t x)) (lines_of self.now) }
    {
        for line in &self.lines {
            if test(line) {
                return false;
            }
        }
        true
    }

    // Takes the line at a place out.
    pub fn remove(&mut self, place: usize) -> T
        requires { place < length (lines_of self.old) }
        ensures value { (d : T) → result ≡ slice_index_or (lines_of self.old) place d }
        ensures lines { lines_of self.new ≡ remove (lines_of self.old) place }
        ensures most { most_of self.new ≡ most_of self.old }
    {
        self.lines.remove(place)
    }

    // Lends the line at a place, to be changed where it stands.
    pub fn line_mut(&mut self, place: usize) -> &mut T
        requires { place < length (lines_of self.old) }
        ensures* follows { sem 𝓛 (follows (the_row T.row L.row L.Limit) T.row self.entry.ghost_name result.ghost_name (with_line self.old place)) }
        ensures value { result.now ≡ slice_index_or (lines_of self.old) place result.now }
    {
        &mut self.lines[place]
    }

    // Puts x behind every line that it does not stand before.
    pub fn insert<R: Rank<T>>(&mut self, by: &R, x: T)
    where
        T: Drop,
        requires { length (lines_of self.old) < most_of self.old }
        ensures lines { lines_of self.new ≡ place (R.before by.now) x (lines_of self.old) }
        ensures behind { in_rank (R.before by.now) (lines_of self.old) ≡ true → lines_of self.new ≡ behind (R.before by.now) x (lines_of self.old) }
        ensures ranked { in_rank (R.before by.now) (lines_of self.old) ≡ true → in_rank (R.before by.now) (lines_of self.new) ≡ true }
        ensures most { most_of self.new ≡ most_of self.old }
        ensures still { store_of self.new ≡ store_of self.old }
    {
        let place = place_of(&self.lines, by, &x);
        let _ = self.lines.insert(place, x);
    }
}

#[cfg(test)]
mod tests {
    use super::*;
    use crate::limit::AtMost;
    use std::test::Fail;

    #[test]
    fn is_made_for_a_number_or_for_what_its_type_says(rt: HostRuntime) -> Result<(), Fail> {
        let most = [1u8, 2].to_vec(rt.alloc())?.len();
        let by_number: RankedList<u32> = RankedList::make(rt.alloc(), most)?;
        assert!(rt; by_number.is_empty() && !by_number.is_full());
        let of_none: RankedList<u32> = RankedList::make(rt.alloc(), most - most)?;
        assert!(rt; of_none.is_empty() && of_none.is_full());
        let by_type: RankedList<u32, AtMost<2>> = RankedList::make(rt.alloc(), AtMost)?;
        assert!(rt; by_type.is_empty() && !by_type.is_full());
        Ok(())
    }
}
