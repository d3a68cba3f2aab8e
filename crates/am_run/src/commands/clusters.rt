//! The command `clusters`: the clusters of a domain's network, or why its file is refused.
ghost use Rattle.std.specs.Prelude.{◌≡◌, ◌<◌, ◌++◌, [], ◌∷◌, map, OnOk, IfOk, IfSome, IfNone, string_bytes};
ghost use Rattle.am_graph.specs.Clusters.{count_of};
ghost use Rattle.am_chain.specs.Chains.{inputs, output, Performs};
ghost use Rattle.am_run.specs.commands.Clusters.{Clusters, SaysClustersWords, IsClusterText, cluster_line, cluster_lines, number_words, name_words, clusters_chain};
ghost use Rattle.am_chain.specs.Shown.{answer_of};
ghost use Rattle.am_run.specs.Asked.{clusters_shown};

use crate::commands::check::name_at;
use am_base::{Shelf, Sink, put};
use am_chain::answer::Stop;
use am_chain::inputs::take_domain;
use am_domain::{Domain, Node, is_file_name};
use am_graph::{Graph, find_clusters};
use std::alloc::{AllocError, Global};
use std::fmt::Write;

/// What `clusters` is asked.
#[derive(Clone, Copy)]
pub struct ClustersWords<'a> {
    /// The name of the domain file.
    pub file: &'a str,
}

/// DOMAIN.
pub fn words_of(words: &[String]) -> Option<ClustersWords<'_>>
    ensures only { IfSome result
        (λ w. SaysClustersWords (map string_bytes words.now) (clusters_shown w)) }
    ensures none { IfNone result
        ((c : Clusters) → SaysClustersWords (map string_bytes words.now) c → ⊥) }
{
    match words {
        [file] => file_word(file.as_str()),
        _ => None,
    }
}

// The same, of one word.
fn file_word(file: &str) -> Option<ClustersWords<'_>>
    ensures only { IfSome result (λ w. SaysClustersWords (file.now ∷ []) (clusters_shown w)) }
    ensures none { IfNone result ((c : Clusters) → SaysClustersWords (file.now ∷ []) c → ⊥) }
{
    if !is_file_name(file) {
        return None;
    }
    Some(ClustersWords { file })
}

/// Takes the domain, and prints a line for each cluster of its network. Nothing is printed before the domain was
/// accepted.
pub fn clusters<S: Shelf, O: Sink>(
    alloc: Global,
    words: &ClustersWords<'_>,
    shelf: &mut S,
    out: &mut O,
) -> Result<(), Stop>
    ensures { Performs (inputs (S.told shelf.old) (S.faults shelf.old) (S.missed shelf.old))
        (inputs (S.told shelf.new) (S.faults shelf.new) (S.missed shelf.new))
        (output (O.written out.old) (O.faults out.old))
        (output (O.written out.new) (O.faults out.new))
        (clusters_chain (clusters_shown words.now)) (answer_of result) }
{
    let domain = match take_domain(alloc, shelf, words.file) {
        Ok(domain) => domain,
        Err(stop) => return Err(stop),
    };
    let Ok(text) = lines_of(alloc, &domain) else {
        return Err(Stop::NoMemory);
    };
    match put(out, text.as_bytes()) {
        Ok(()) => Ok(()),
        Err(_) => Err(Stop::WriteFault),
    }
}

// The lines of the clusters of the domain's network.
fn lines_of(alloc: Global, domain: &Domain) -> Result<String, AllocError>
    ensures { IfOk result (λ text. IsClusterText domain.now (string_bytes text)) }
{
    let graph = Graph::of(alloc, domain)?;
    let clusters = find_clusters(alloc, &graph)?;
    let mut text = String::new(alloc);
    push_clusters(&mut text, domain.nodes(), &clusters)?;
    Ok(text)
}

// Adds the lines of the clusters.
fn push_clusters(
    text: &mut String,
    nodes: &[Node],
    clusters: &am_graph::Clusters,
) -> Result<(), AllocError>
    ensures { OnOk result (string_bytes text.new
        ≡ string_bytes text.old ++ cluster_lines nodes.now clusters.now (count_of clusters.now)) }
{
    for k in 0..clusters.count() {
        push_cluster(text, nodes, clusters, k)?;
    }
    Ok(())
}

// Adds the line of a cluster.
fn push_cluster(
    text: &mut String,
    nodes: &[Node],
    clusters: &am_graph::Clusters,
    k: u32,
) -> Result<(), AllocError>
    requires { k < count_of clusters.now }
    ensures { OnOk result (string_bytes text.new
        ≡ string_bytes text.old ++ cluster_line nodes.now clusters.now k) }
{
    write!(text, "cluster {k} links")?;
    push_numbers(text, clusters.links(k))?;
    text.push_str(" starts")?;
    push_names(text, nodes, clusters.starts(k))?;
    text.push_str(" ends")?;
    push_names(text, nodes, clusters.ends(k))?;
    text.push_str("\n")
}

// Adds numbers, each after a space.
fn push_numbers(text: &mut String, numbers: &[u32]) -> Result<(), AllocError>
    ensures { OnOk result
        (string_bytes text.new ≡ string_bytes text.old ++ number_words numbers.now) }
{
    for number in numbers {
        write!(text, " {number}")?;
    }
    Ok(())
}

// Adds the names of the nodes of these numbers, each after a space.
fn push_names(text: &mut String, nodes: &[Node], numbers: &[u32]) -> Result<(), AllocError>
    ensures { OnOk result
        (string_bytes text.new ≡ string_bytes text.old ++ name_words nodes.now numbers.now) }
{
    for number in numbers {
        text.push_str(" ")?;
        text.push_str(name_at(nodes, *number))?;
    }
    Ok(())
}
