// A list that is held elsewhere and lent to a veto, so that the veto allocates nothing.
ghost use Rattle.std.specs.Prelude.{◌≡◌, List};

pub trait Lent<T> {
    ghost items: { Self → List T };

    fn as_items(&self) -> &[T]
        ensures { result.now ≡ items self.now };
}

impl<'a, T> Lent<T> for &'a [T] {
    ghost items = { λ s. s.now };

    fn as_items(&self) -> &[T] {
        self
    }
}
