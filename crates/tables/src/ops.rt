// What a table does, by the list of its items. The struct has a file of its own, since specs/ names it.
ghost use Rattle.std.specs.Prelude.{◌≡◌, ◌+◌, not, [], ◌∷◌, ◌++◌, length, take, if◌then◌else◌, nat_le, nat_lt};
ghost use Rattle.tables.specs.Items.{entries};

use crate::Table;

impl<T: Copy, const N: usize> Table<T, N> {
    // An empty table. `fill` stands in the places that hold no item yet.
    pub fn new(fill: T) -> Self
        ensures { entries result ≡ [] }
    {
        Table {
            items: [fill; N],
            len: 0,
        }
    }

    // One item more, or false and no change where the table is full.
    pub fn push(&mut self, item: T) -> bool
        ensures value { result ≡ nat_lt (length (entries self.old)) N }
        ensures items { entries self.new ≡ (if result then entries self.old ++ item ∷ [] else entries self.old) }
    {
        let at = self.len;
        if at >= N {
            return false;
        }
        self.items[at] = item;
        self.len = at + 1;
        true
    }

    // All of `more`, or false and no change where they do not fit.
    pub fn extend(&mut self, more: &[T]) -> bool
        ensures value { result ≡ nat_le (length (entries self.old) + length more.now) N }
        ensures items { entries self.new ≡ (if result then entries self.old ++ more.now else entries self.old) }
    {
        if more.len() > N - self.len {
            return false;
        }
        let (at, end) = (self.len, self.len + more.len());
        let all = &mut self.items[..];
        all[at..end].copy_from_slice(more);
        self.len = end;
        true
    }

    // The first `len` items, or all where there are no more.
    pub fn truncate(&mut self, len: usize)
        ensures { entries self.new ≡ take len (entries self.old) }
    {
        if len < self.len {
            self.len = len;
        }
    }

    pub fn as_slice(&self) -> &[T]
        ensures { result.now ≡ entries self.now }
    {
        &self.items[..self.len]
    }
}
