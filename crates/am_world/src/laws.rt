//! Laws of worlds.
//!
//! A law is a function without a body. A call of it does nothing when the program runs: it is there for a proof, which
//! cites its clauses.

ghost use Rattle.std.specs.Prelude.{◌≡◌, ◌<◌, ℕ, Bool, List, ◌++◌, length};
ghost use Rattle.am_clock.specs.Times.{IsTiming};
ghost use Rattle.am_domain.specs.Domains.{DomainValue, IsLawful, Reports};
ghost use Rattle.am_graph.specs.Graphs.{graph_of};
ghost use Rattle.am_graph.specs.Clusters.{ClustersValue, AreClusters, cluster_of, count_of};
ghost use Rattle.am_meter.specs.declared.stream.Marked.{Marked};
ghost use Rattle.am_control.specs.Plans.{IsPlanOf};
ghost use Rattle.am_control.specs.Rows.{Measured};
ghost use Rattle.am_world.specs.declared.event.Event.{Event};
ghost use Rattle.am_world.specs.Worlds.{IsValid, IsTimed};
ghost use Rattle.am_world.specs.Passes.{sends};
ghost use Rattle.am_world.specs.Drops.{dropped_in};
ghost use Rattle.am_world.specs.Laws.{AreAttributed, AreConserved};
ghost use Rattle.am_world.specs.Delays.{TellsDelays};
ghost use Rattle.am_world.specs.Losses.{AreRecorded, IsCountedFrom, TellsDrops};
ghost use Rattle.am_world.specs.LinkLosses.{StandsAlone, CoverEnds, RecordEnds, dropped_on, TellsLink};

use am_control::loss_law;

/// Why the loss that is computed from captures is the one that the network had.
pub fn world_law()
    // In a timed world each pass of a packet belongs to the block that the packet was sent in, and to no other.
    ensures attributed { (d : DomainValue) (events : List Event)
        → IsLawful d → IsValid d events → IsTimed d.times events → AreAttributed d events }

    // At each time packets of a cluster are conserved: those that passed its starts hopped over its links, were dropped
    // at a start or wait there, and those that passed its ends hopped over its links.
    ensures conserved { (d : DomainValue) (c : ClustersValue) (before after : List Event)
        (k flow block : ℕ)
        → AreClusters (graph_of d) c → k < count_of c → IsValid d (before ++ after)
        → AreConserved d c k (sends d.times flow block) before }

    // So where the captures record such a world, the loss of a cluster is the number of packets dropped in it.
    ensures drops { (d : DomainValue) (m : Measured) (events : List Event)
        (captures : ℕ → List Marked) (flow block : ℕ)
        → IsLawful d → IsPlanOf d m.plan → IsCountedFrom d captures m
        → AreRecorded d events captures
        → flow < length d.flows → Reports d block → TellsDrops d m events flow block }

    // And its delay is how long the packets took over the links of the cluster, but for the skew at each packet.
    ensures delays { (d : DomainValue) (m : Measured) (events : List Event)
        (captures : ℕ → List Marked) (flow block : ℕ)
        → IsLawful d → IsPlanOf d m.plan → IsCountedFrom d captures m
        → AreRecorded d events captures
        → flow < length d.flows → Reports d block → TellsDelays d m events flow block }
{
    loss_law();
}

/// Why what is counted at the two ends of a link tells what was dropped between them: the same for two captures alone.
pub fn link_law()
    // Where no other link shares an end with the link, and the captures of its ends record a valid and timed world: of
    // each block that both cover, what counts at its start counts at its end or was dropped between.
    ensures counts { (d : DomainValue) (events : List Event) (link : ℕ)
        (ups downs : List Marked) (flow block : ℕ)
        → IsTiming d.times → StandsAlone d.links link → RecordEnds d events link ups downs
        → flow < length d.flows → CoverEnds d link block
        → TellsLink d events link ups downs flow block }

    // Such a link is a cluster by itself, and what is dropped between its ends is what is dropped in its cluster.
    ensures cluster { (d : DomainValue) (c : ClustersValue) (link : ℕ)
        (so : Event → Bool) (events : List Event)
        → AreClusters (graph_of d) c → StandsAlone d.links link
        → dropped_in d.links c (cluster_of c link) so events ≡ dropped_on d.links link so events }
{}
