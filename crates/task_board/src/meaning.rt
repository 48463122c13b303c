//! What the headers are to be given.
ghost use Rattle.std.specs.Prelude.{◌≡◌, ℕ, Option, true};

/// What value, if any, each header has in each slot. A meaning is equal to itself and to its copies, and equal meanings
/// give every header the same in every slot.
pub trait Meaning: Copy + Eq {
    type Value: Send + Drop;

    // The value of the header with this number, in this slot.
    ghost gives: { Self → ℕ → ℕ → Option Self.Value };

    // Equal meanings give every header the same.
    ghost same: { (a b : Self) → Self.eq a b ≡ true → (slot h : ℕ) → gives a slot h ≡ gives b slot h };
}
