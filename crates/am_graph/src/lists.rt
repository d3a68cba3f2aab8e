//! Lists of numbers, one at each of so many places.
ghost use Rattle.std.specs.Prelude.{◌≡◌, ◌<◌, [], IfOk, OnOk, length, replicate};
ghost use Rattle.am_graph.specs.Lists.{list_at, with_item};

use std::alloc::{AllocError, Global};
use std::marker::Model;

/// Lists of numbers, one at each place.
#[derive(Drop)]
pub(crate) struct Lists {
    lists: Vec<Vec<u32>>,
}

impl Model for Lists {
    ghost use Rattle.std.specs.Prelude.{List, ℕ, ◌<◌, ◌^◌, map, length};

    ghost Value = { List (List ℕ) };

    ghost view = { λ a. map (λ v. v.items) a.lists.items };
}

impl Lists {
    /// So many empty lists.
    pub(crate) fn empty(alloc: Global, count: usize) -> Result<Lists, AllocError>
        ensures { IfOk result (λ lists. lists ≡ replicate count []) }
    {
        let mut lists = Vec::with_capacity(alloc, count)?;
        for _place in 0..count {
            lists.push(Vec::new(alloc))?;
        }
        Ok(Lists { lists })
    }

    /// The list at this place.
    pub(crate) fn at(&self, place: u32) -> &[u32]
        requires { place < length self.now }
        ensures { result.now ≡ list_at self.now place }
    {
        self.lists[place as usize].as_slice()
    }

    /// Adds an item at the end of the list at this place.
    pub(crate) fn push(&mut self, place: u32, item: u32) -> Result<(), AllocError>
        requires { place < length self.old }
        ensures { OnOk result (self.new ≡ with_item self.old place item) }
    {
        self.lists[place as usize].push(item)?;
        Ok(())
    }

    /// How many lists there are.
    pub(crate) fn len(&self) -> usize
        ensures { result ≡ length self.now }
    {
        self.lists.len()
    }
}
