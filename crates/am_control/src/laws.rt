//! Laws of loss tables.
//!
//! A law is a function without a body. A call of it does nothing when the program runs: it is there for a proof, which
//! cites its clause.

ghost use Rattle.std.specs.Prelude.{◌≡◌, ℕ};
ghost use Rattle.am_domain.specs.Domains.{DomainValue, IsLawful};
ghost use Rattle.am_control.specs.declared.row.Scope.TheVariants.{Network};
ghost use Rattle.am_control.specs.Plans.{IsPlanOf};
ghost use Rattle.am_control.specs.Rows.{Measured, lost_in, lost_in_clusters};

/// Whatever the nodes counted, what was lost in the network is what was lost in its clusters, added up: each node at
/// which a link begins is a start of one cluster, and each at which one ends an end of one.
pub fn loss_law()
    ensures { (d : DomainValue) (m : Measured) (flow block : ℕ)
        → IsLawful d → IsPlanOf d m.plan
        → lost_in m Network flow block ≡ lost_in_clusters m flow block }
{}
