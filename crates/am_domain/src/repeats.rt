//! Which two of a list are the same.

ghost use Rattle.std.specs.Prelude.{◌≡◌, ℕ, ◌<◌, ◌↔◌, IsTrue, IfSome, IfNone, length, slice_index_or};
ghost use Rattle.am_domain.specs.Lists.{AllBelow, DistinctBelow, IsFirstPair};

use crate::flow::Flow;
use crate::link::Link;
use crate::node::Node;

/// When two values are the same.
pub(crate) trait Sameness<T> {
    ghost same: { T → T → Type 0 };

    /// Whether the two are the same.
    fn are_same(a: &T, b: &T) -> bool
        ensures { IsTrue result ↔ same a.now b.now };
}

/// Two flows of one name.
pub(crate) struct FlowNames;

impl Sameness<Flow> for FlowNames {
    ghost same = { λ a b. a.name ≡ b.name };

    fn are_same(a: &Flow, b: &Flow) -> bool {
        a.name() == b.name()
    }
}

/// Two flows of one number.
pub(crate) struct FlowIds;

impl Sameness<Flow> for FlowIds {
    ghost same = { λ a b. a.id ≡ b.id };

    fn are_same(a: &Flow, b: &Flow) -> bool {
        a.id() == b.id()
    }
}

/// Two nodes of one name.
pub(crate) struct NodeNames;

impl Sameness<Node> for NodeNames {
    ghost same = { λ a b. a.name ≡ b.name };

    fn are_same(a: &Node, b: &Node) -> bool {
        a.name() == b.name()
    }
}

/// Two links that lead from and to the same nodes.
pub(crate) struct LinkEnds;

impl Sameness<Link> for LinkEnds {
    ghost use Rattle.std.specs.Prelude.{◌≡◌};
    ghost use Rattle.am_domain.specs.Network.{SameEnds};

    ghost same = { SameEnds };

    fn are_same(a: &Link, b: &Link) -> bool {
        if a.from() != b.from() {
            return false;
        }
        a.to() == b.to()
    }
}

/// The least place whose item is the same as an earlier one, behind that earlier one's place.
pub(crate) fn repeated<T, S: Sameness<T>>(items: &[T]) -> Option<(usize, usize)>
    ensures found { IfSome result (λ p. IsFirstPair S.same items.now p.0 p.1) }
    ensures none { IfNone result (DistinctBelow S.same (length items.now) items.now) }
{
    for second in 0..items.len() {
        if let Some(first) = same_before::<T, S>(items, second) {
            return Some((first, second));
        }
    }
    None
}

// The first place before this one whose item is the same.
fn same_before<T, S: Sameness<T>>(items: &[T], second: usize) -> Option<usize>
    requires { second < length items.now }
    ensures before { IfSome result (λ first. first < second) }
    ensures found { IfSome result (λ first. (d : T)
        → S.same (slice_index_or items.now first d) (slice_index_or items.now second d)) }
    ensures none { IfNone result ((d : T)
        → AllBelow (λ x. ¬ S.same x (slice_index_or items.now second d)) second items.now) }
{
    let item = &items[second];
    for first in 0..second {
        if S::are_same(&items[first], item) {
            return Some(first);
        }
    }
    None
}
