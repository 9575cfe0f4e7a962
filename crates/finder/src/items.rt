// A list that a veto owns, in a table.
ghost use Rattle.std.specs.Prelude.{◌≡◌, ◌<◌, ◌≤◌, [], ◌∷◌, length};
ghost use Rattle.tables.specs.Items.{entries};

use tables::Table;
use vetoes::lent::Lent;

#[derive(Drop)]
pub struct Owned<T: Copy, const N: usize> {
    table: Table<T, N>,
}

impl<T: Copy, const N: usize> Lent<T> for Owned<T, N> {
    ghost items = { λ s. entries s.table };

    fn as_items(&self) -> &[T] {
        self.table.as_slice()
    }
}

impl<T: Copy, const N: usize> Owned<T, N> {
    // No items. `fill` stands in the places that hold none.
    pub(crate) fn empty(fill: T) -> Self
        ensures { entries result.table ≡ [] }
    {
        Owned {
            table: Table::new(fill),
        }
    }

    pub(crate) fn copied(fill: T, items: &[T]) -> Self
        requires { length items.now ≤ N }
        ensures { entries result.table ≡ items.now }
    {
        let mut table = Table::new(fill);
        let _ = table.extend(items);
        Owned { table }
    }

    // The first item, and then the others.
    pub(crate) fn headed(first: T, items: &[T]) -> Self
        requires { length items.now < N }
        ensures { entries result.table ≡ first ∷ items.now }
    {
        let mut table = Table::new(first);
        let _ = table.push(first);
        let _ = table.extend(items);
        Owned { table }
    }
}
