// A list that is kept in rank, and holds no more lines than its limit.
ghost use Rattle.std.specs.Prelude.{◌≤◌, vec_len, vec_capacity};

use crate::limit::Limit;

pub mod methods;

// Room for all lines that it may hold is reserved when the list is made, so that no later call allocates. The limit is a number, or
// stands in the type.
#[derive(Drop)]
pub struct RankedList<T, L: Limit = usize> {
    lines: Vec<T>,
    limit: L,
    ghost within: { vec_len lines ≤ L.most limit },
    ghost room: { L.most limit ≤ vec_capacity lines },
}
