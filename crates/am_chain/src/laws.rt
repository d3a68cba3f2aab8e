//! What is known of reports that were taken, whatever they are: a law, the contract of a function that does nothing.
ghost use Rattle.std.specs.Prelude.{◌≡◌, ◌∷◌, ◌++◌, [], ℕ, List, None};
ghost use Rattle.am_chain.specs.Gathering.{cells_of};
ghost use Rattle.am_report.specs.declared.read.Report.{Report};

/// One more report, of a node of which there was none, may stand first or last: the cells of each node are the same.
pub fn reports_law()
    ensures { (taken : List Report) (r : Report) (node : ℕ) → cells_of taken r.node ≡ None
        → cells_of (taken ++ r ∷ []) node ≡ cells_of (r ∷ taken) node }
{}
