//! The values of at most eight groups, in a place of their own.

ghost use Rattle.std.specs.Prelude.{◌≡◌, ◌<◌, ◌≤◌, [], ◌∷◌, ◌++◌, length};

/// Values of groups, of which there are at most eight.
#[derive(Clone, Copy)]
pub struct Groups {
    items: [u16; 8],
    count: usize,
    ghost within: { count ≤ 8 },
}

#[tactic(auto, unfolding(crate::specs::Walk::listed), using(crate::proofs::Listing::more_set, crate::proofs::Listing::taken_length))]
impl Groups {
    ghost use Rattle.am_addr.specs.Walk.{listed};

    pub fn new() -> Groups
        ensures { listed result ≡ [] }
    {
        Groups {
            items: [0; 8],
            count: 0,
        }
    }

    pub fn count(&self) -> usize
        ensures value { result ≡ length (listed self.now) }
        ensures few { result ≤ 8 }
    {
        self.count
    }

    pub fn as_slice(&self) -> &[u16]
        ensures { result.now ≡ listed self.now }
    {
        &self.items[..self.count]
    }

    pub fn push(&mut self, value: u16)
        requires { length (listed self.old) < 8 }
        ensures { listed self.new ≡ listed self.old ++ value ∷ [] }
    {
        self.items[self.count] = value;
        self.count += 1;
    }

    // All eight values.
    pub fn values(&self) -> [u16; 8]
        requires { length (listed self.now) ≡ 8 }
        ensures { result ≡ listed self.now }
    {
        self.items
    }
}
