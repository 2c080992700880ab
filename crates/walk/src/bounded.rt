// Lists in fixed memory.
ghost use Rattle.std.specs.Prelude.{◌≡◌, ◌+◌, ◌<◌, ◌≤◌, length, take, slice_set};

use std::alloc::AllocError;

// At most N items, one behind the other. (No heap: the places behind `count` hold blanks.)
#[derive_where(Copy; T: Copy)]
#[derive(Drop)]
pub struct Bounded<T, const N: usize> {
    pub items: [T; N],
    pub count: usize,
    ghost size: { length items ≡ N },
    ghost few: { count ≤ N },
}

// (By hand: over a ghost field and a type parameter Clone is not derived.)
impl<T: Copy, const N: usize> Clone for Bounded<T, N> {
    ghost is_clone = { λ a b. b ≡ a };

    fn clone(&self) -> Result<Bounded<T, N>, AllocError> {
        Ok(*self)
    }
}

impl<T: Copy, const N: usize> Bounded<T, N> {
    // No items; the unused places hold `blank`.
    pub fn empty(blank: T) -> Bounded<T, N>
        ensures { result.count ≡ 0 }
    {
        Bounded {
            items: [blank; N],
            count: 0,
        }
    }

    pub fn as_slice(&self) -> &[T]
        ensures { result.now ≡ take self.now.count self.now.items }
    {
        &self.items[..self.count]
    }

    // One more item, if there is room.
    pub fn push(&mut self, item: T)
        requires { self.old.count < N }
        ensures items { self.new.items ≡ slice_set self.old.items self.old.count item }
        ensures count { self.new.count ≡ self.old.count + 1 }
    {
        self.items[self.count] = item;
        self.count += 1;
    }
}
