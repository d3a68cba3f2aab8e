//! What was compared in one scope.

use am_control::Scope;

/// What a world drops in a cluster or in the network, and what is reported of it: the sums over all flows and reported
/// blocks.
#[derive(Clone, Copy, Debug, PartialEq, Eq)]
pub struct SimRow {
    /// The cluster, or the network.
    pub scope: Scope,
    /// How many packets the world drops there: the true loss.
    pub dropped: u128,
    /// The loss that is reported.
    pub lost: i128,
    /// How many pairs of a flow and a reported block there are.
    pub cells: u64,
    /// Of how many of these pairs both losses are equal.
    pub equal: u64,
}
