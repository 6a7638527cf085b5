// An object's children, which stand side by side in the table: each names the one behind it by word 8.
ghost use Rattle.std.specs.Prelude.{◌≡◌, ◌-◌};
ghost use Rattle.std.specs.Iterator.{at_most};
ghost use Rattle.reader.specs.Internal.Siblings.{Chained, Steps};

use super::rows::{NEXT, word_of};

// The children from the node `next` to before `end`.
#[derive(Drop)]
pub struct Siblings<'a> {
    table: &'a [u32],
    next: usize,
    end: usize,
}

impl Iterator for Siblings<'_> {
    type Item = usize;

    ghost can_next = { λ s. Chained s.table.now s.next s.end };

    ghost next_gives = { λ s r t. Steps s r t };

    ghost remaining = { λ s. at_most (s.end - s.next) };

    fn next(&mut self) -> Option<usize> {
        if self.end <= self.next {
            return None;
        }
        let child = self.next;
        self.next = word_of(self.table, child, NEXT);
        Some(child)
    }
}

// The children from the node `next` to before `end`.
pub(crate) fn side_by_side(table: &[u32], next: usize, end: usize) -> Siblings<'_>
    requires { Chained table.now next end }
    ensures chained { Chained result.table.now result.next result.end }
    ensures table_is { result.table.now ≡ table.now }
    ensures next_is { result.next ≡ next }
    ensures end_is { result.end ≡ end }
{
    Siblings { table, next, end }
}
