// What can be done with a few items.
ghost use Rattle.std.specs.Prelude.{◌≡◌, ◌+◌, ◌<◌, ◌≤◌, ◌==◌, [], ◌∷◌, ◌++◌, length, Ok, Err};
ghost use Rattle.few.specs.Items.{items, no_room};

use super::{Few, NoRoom};

impl<T: Copy, const N: usize> Few<T, N> {
    /// No items yet. Until an item takes its place, a slot holds `blank`.
    pub fn none(blank: T) -> Self
        ensures { items result ≡ [] }
    {
        Few {
            slots: [blank; N],
            len: 0,
        }
    }

    /// One item more, behind the others; refused where there is no room for it.
    pub fn push(&mut self, item: T) -> Result<(), NoRoom>
        ensures taken { length (items self.old) < N → (result ≡ Ok tt) × (items self.new ≡ items self.old ++ item ∷ []) }
        ensures refused { N ≤ length (items self.old) → (result ≡ Err no_room) × (self.new ≡ self.old) }
    {
        if self.len == N {
            return Err(NoRoom);
        }
        self.slots[self.len] = item;
        self.len += 1;
        Ok(())
    }

    /// These items behind the others, in their order; where there is no room for all of them, none is taken.
    pub fn extend_from_slice(&mut self, more: &[T]) -> Result<(), NoRoom>
        ensures taken { length (items self.old) + length more.now ≤ N → (result ≡ Ok tt) × (items self.new ≡ items self.old ++ more.now) }
        ensures refused { N < length (items self.old) + length more.now → (result ≡ Err no_room) × (self.new ≡ self.old) }
    {
        if more.len() > N - self.len {
            return Err(NoRoom);
        }
        let next = self.len + more.len();
        let slots = &mut self.slots[..];
        slots[self.len..next].copy_from_slice(more);
        self.len = next;
        Ok(())
    }

    /// Whether there is no room for one item more.
    pub fn is_full(&self) -> bool
        ensures { result ≡ (length (items self.now) == N) }
    {
        self.len == N
    }

    /// Whether there is no item.
    pub fn is_empty(&self) -> bool
        ensures { result ≡ (length (items self.now) == 0) }
    {
        self.len == 0
    }

    /// Throws all items away.
    pub fn clear(&mut self)
        ensures { items self.new ≡ [] }
    {
        self.len = 0;
    }

    /// The items in their order.
    pub fn as_slice(&self) -> &[T]
        ensures value { result.now ≡ items self.now }
        ensures within { length result.now ≤ N }
    {
        &self.slots[..self.len]
    }
}
