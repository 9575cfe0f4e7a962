// A table of at most N items in fixed memory, known by the list of its items.
#![tactic(auto)]

ghost use Rattle.std.specs.Prelude.{◌≡◌, ◌≤◌, length};

mod ops;

#[derive(Drop)]
pub struct Table<T: Copy, const N: usize> {
    items: [T; N],
    len: usize,
    ghost size: { length items ≡ N },
    ghost few: { len ≤ N },
}
