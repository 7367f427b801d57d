// A list of at most four, without heap.
ghost use Rattle.std.specs.Prelude.{◌≡◌, ◌+◌, ◌<◌, ◌≤◌, length, take, slice_set};

// The first `count` of `items`, in the order in which they came. It has no invariant, since a host lends cells whatever
// they hold; a count above four tells no more than four.
#[derive(Clone, Copy)]
pub struct Few<T> {
    pub count: u8,
    pub items: [T; 4],
}

impl<T: Copy> Few<T> {
    // One more. Where four are counted, or more, it stays.
    pub fn push(self, item: T) -> Few<T>
        ensures counted { self.count < 4 → result.count ≡ self.count + 1 }
        ensures kept { self.count < 4 → result.items ≡ slice_set self.items self.count item }
        ensures full { 4 ≤ self.count → result ≡ self }
        ensures four { length self.items ≡ 4 }
    {
        if self.count >= 4 {
            return self;
        }
        let mut items = self.items;
        items[self.count as usize] = item;
        Few {
            count: self.count + 1,
            items,
        }
    }

    // Those that are counted, at most four.
    pub fn as_slice(&self) -> &[T]
        ensures counted { self.now.count ≤ 4 → length result.now ≡ self.now.count }
        ensures kept { result.now ≡ take self.now.count self.now.items }
    {
        &self.items[..usize::from(self.count).min(4)]
    }
}
