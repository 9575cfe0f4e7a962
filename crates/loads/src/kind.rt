// A load kind: how loads are joined, and when a total is over the limit.
ghost use Rattle.std.specs.Prelude.{◌≡◌, ℕ, ◌^◌, ◌<◌, ◌≤◌, Bool, true, bit_or, count_ones};
ghost use Rattle.loads.specs.Kinds.{sum, more, union, wider};
ghost use Rattle.std.proofs.Common.{rules, arith};
ghost use Rattle.loads.specs.Unions.{or_assoc, ones_or};
ghost use Rattle.std.proofs.lemmas.Nat.{or_comm};
ghost use Rattle.std.proofs.lemmas.Bool.{lt-ltb, ltb-true};

pub trait LoadKind: Sized + Copy {
    const EMPTY: Self;

    ghost EMPTY: { Self };

    // what a value of the type can be
    ghost fit: { Self → Type 0 };

    ghost join: { Self → Self → Self };

    // over the limit, which comes first
    ghost over: { Self → Self → Bool };

    fn joined(self, other: Self) -> Self
        ensures { result ≡ join self other };

    fn is_over(self, limit: Self) -> bool
        ensures { result ≡ over limit self };

    ghost assoc: { (x y z : Self) → join (join x y) z ≡ join x (join y z) };

    ghost comm: { (x y : Self) → join x y ≡ join y x };

    ghost neutral: { (x : Self) → fit x → join EMPTY x ≡ x };

    ghost stays: { (m x y : Self) → over m x ≡ true → over m (join x y) ≡ true };
}

// Milliamperes add up, and stop at the largest number.
pub type Milliamperes = u32;

// A set of 16 controller lines: line k is in it where bit k - 1 is 1.
pub type Lines = u16;

impl LoadKind for u32 {
    const EMPTY: u32 = 0;

    ghost EMPTY = { 0 };

    ghost fit = { λ x. x < 2 ^ 32 };

    ghost join = { sum };

    ghost over = { more };

    ghost assoc = { Prim.search rules };

    ghost comm = { Prim.search rules };

    ghost neutral = { Prim.search rules };

    ghost stays = { Prim.search rules };

    fn joined(self, other: u32) -> u32 {
        self.saturating_add(other)
    }

    fn is_over(self, limit: u32) -> bool {
        self > limit
    }
}

impl LoadKind for u16 {
    const EMPTY: u16 = 0;

    ghost EMPTY = { 0 };

    ghost fit = { λ x. x < 2 ^ 16 };

    ghost join = { union };

    ghost over = { wider };

    ghost assoc = { λ x y z. or_assoc x y z };

    ghost comm = { λ x y. or_comm x y };

    ghost neutral = { Prim.search rules };

    ghost stays = { λ m x y h. lt-ltb (count_ones m) (count_ones (bit_or x y)) (omega (arith, ltb-true (count_ones m) (count_ones x) h, ones_or x y)) };

    fn joined(self, other: u16) -> u16 {
        self | other
    }

    fn is_over(self, limit: u16) -> bool {
        self.count_ones() > limit.count_ones()
    }
}
