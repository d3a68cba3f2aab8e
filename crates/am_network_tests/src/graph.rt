//! The clusters of a small network, found by hand (RFC 9342, section 4).

use crate::samples::network;
use am_graph::{Clusters, Graph, find_clusters};
use std::alloc::{AllocError, Global};
use std::fmt::Write;
use std::test::Fail;

// Each cluster with its links, starts and ends.
fn shown(alloc: Global, clusters: &Clusters) -> Result<String, AllocError> {
    let mut text = String::new(alloc);
    for cluster in 0..clusters.count() {
        let (links, starts) = (clusters.links(cluster), clusters.starts(cluster));
        let ends = clusters.ends(cluster);
        writeln!(text, "{links:?} {starts:?} {ends:?}")?;
    }
    Ok(text)
}

// In the second cluster the first link and the last share nothing: joining goes on until nothing changes.
#[test]
fn links_that_share_a_start_or_an_end_are_one_cluster(rt: HostRuntime) -> Result<(), Fail> {
    let alloc = rt.alloc();
    let domain = network(alloc, "f", "abcdefghij", "ab ac bd be ce df di eg eh ej")?;
    assert!(rt; domain.edges().len() == 10);
    let graph = Graph::of(alloc, &domain)?;
    let clusters = find_clusters(alloc, &graph)?;
    let text = shown(alloc, &clusters)?;
    let wanted = "[0, 1] [0] [1, 2]
[2, 3, 4] [1, 2] [3, 4]
[5, 6] [3] [5, 8]
[7, 8, 9] [4] [6, 7, 9]
";
    assert!(rt; text.as_str() == wanted);
    assert!(rt; clusters.of_link(9) == 3);
    Ok(())
}
