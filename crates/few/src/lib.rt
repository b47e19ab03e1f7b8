//! A few items in order, at most a fixed number of them, in the value itself: it copies, and never allocates.
#![tactic(auto)]

ghost use Rattle.std.specs.Prelude.{◌≡◌, ◌≤◌};

use std::alloc::AllocError;

mod items;

/// There is no room for what is to be taken.
#[derive(Clone, Copy, PartialEq, Eq, Debug)]
pub struct NoRoom;

/// At most `N` items, in the order in which they came.
// no derived `==` and `Debug`: they would compare and print the slots that hold no item; `as_slice` is what is compared and printed
pub struct Few<T, const N: usize> {
    slots: [T; N],
    len: usize,
    ghost within: { len ≤ N },
}

// no derive: it is refused over a ghost field of a generic struct
impl<T: Copy, const N: usize> Copy for Few<T, N> {}

impl<T: Copy, const N: usize> Clone for Few<T, N> {
    ghost is_clone = { λ few copy. copy ≡ few };

    ghost is_infallible = { λ few. Unit {0} };

    fn clone(&self) -> Result<Self, AllocError> {
        Ok(*self)
    }
}
