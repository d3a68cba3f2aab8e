//! The numbers of flows in ascending order, so that a flow is found by its number in few steps.

ghost use Rattle.std.specs.Prelude.{◌≡◌, ◌≢◌, ◌≤◌, IfOk, IfSome, IfNone, All, Contains, length};
ghost use Rattle.std.specs.List.Sorted.{IsNonDecreasingBy};
ghost use Rattle.am_domain.specs.Numbers.{AreNumbers};

use crate::flow::Flow;
use std::alloc::{AllocError, Global};

/// A flow's number, and the flow's place in the file.
#[derive(Clone, Copy, Debug)]
pub(crate) struct Numbered {
    id: u32,
    at: u32,
}

/// The numbers of the flows, in ascending order.
pub(crate) fn numbers_of(alloc: Global, flows: &[Flow]) -> Result<Vec<Numbered>, AllocError>
    requires { length flows.now ≤ 1024 }
    ensures { IfOk result (λ numbers. AreNumbers flows.now numbers.items) }
{
    let mut numbers = Vec::new(alloc);
    for i in 0..flows.len() {
        numbers.push(Numbered {
            id: flows[i].id(),
            at: i as u32,
        })?;
    }
    numbers.sort_unstable_by_key(|numbered| numbered.id);
    Ok(numbers)
}

/// The place of a flow of this number. None where no flow has it.
pub(crate) fn place_of(numbers: &[Numbered], id: u32) -> Option<u32>
    requires { IsNonDecreasingBy (λ n. n.id) numbers.now }
    ensures found { IfSome result (λ at. Contains numbers.now (record { id = id; at = at })) }
    ensures none { IfNone result (All (λ n. n.id ≢ id) numbers.now) }
{
    match numbers.binary_search_by_key(&id, |numbered| numbered.id) {
        Ok(k) => Some(numbers[k].at),
        Err(_) => None,
    }
}
