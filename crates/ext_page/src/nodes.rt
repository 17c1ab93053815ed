//! The nodes of a page.
ghost use Rattle.std.specs.Prelude.{◌≡◌, ◌<◌, ℕ, All, IfOk, List, None, Some, length, map, replicate, set, slice_get, string_bytes};
ghost use Rattle.ext_tree.specs.Trees.{IsPathOf, id_at};
ghost use Rattle.ext_page.specs.Nodes.{ArePlaces, HaveParents, name_text, place_in, place_of_next};

use crate::run::Node;
use ext_ids::UniqueId;
use ext_lifecycle::NodeResult;
use ext_tree::Tree;
use std::alloc::{AllocError, Global};

/// The nodes of a page, and the place among them of each context of the tree, if it has one.
#[derive(Drop)]
pub struct PlacedNodes {
    pub nodes: Vec<Node>,
    pub places: Vec<Option<usize>>,
}

impl PlacedNodes {
    /// The node of each of these results, in their order. Each result is of a context of the tree,
    /// and comes behind that of the parent, if there is one.
    ///
    /// Takes memory for the nodes, and fails with `AllocError` only if that is refused. An own rule.
    pub fn of(alloc: Global, tree: &Tree, results: &[NodeResult]) -> Result<PlacedNodes, AllocError>
        requires in_tree { All (λ r. r.node < length tree.now) results.now }
        ensures names { IfOk result (λ placed. map (λ n. string_bytes n.name) placed.nodes.items ≡ map (λ r. name_text (id_at tree.now r.node)) results.now) }
        ensures parents { IfOk result (λ placed. HaveParents tree.now results.now placed.nodes.items) }
        ensures places { IfOk result (λ placed. ArePlaces results.now placed.places.items) }
        ensures statuses { IfOk result (λ placed. map (λ n. n.status) placed.nodes.items ≡ map (λ r. r.status) results.now) }
        ensures tests { IfOk result (λ placed. map (λ n. n.is_test) placed.nodes.items ≡ map (λ r. r.is_test) results.now) }
    {
        let mut nodes = Vec::new(alloc);
        let mut places = no_places(alloc, tree.len())?;
        for ran in results {
            let place = nodes.len();
            nodes.push(Node {
                parent: parent_place(tree, ran, places.as_slice()),
                name: name_of(alloc, tree.id(ran.node))?,
                is_test: ran.is_test,
                status: ran.status,
            })?;
            set_place(&mut places, ran, place);
        }
        Ok(PlacedNodes { nodes, places })
    }

    /// The place of a context.
    pub fn place(&self, context: usize) -> Option<usize>
        ensures { result ≡ place_in (slice_get self.now.places.items context) }
    {
        place_in(self.places.as_slice(), context)
    }
}

fn no_places(alloc: Global, count: usize) -> Result<Vec<Option<usize>>, AllocError>
    ensures { IfOk result (λ places. places.items ≡ replicate count None) }
{
    vec![in alloc; None; count]
}

fn set_place(places: &mut Vec<Option<usize>>, ran: &NodeResult, place: usize)
    ensures { places.new.items ≡ set places.old.items ran.now.node (Some place) }
{
    if let Some(entry) = places.get_mut(ran.node) {
        *entry = Some(place);
    }
}

fn place_in(places: &[Option<usize>], context: usize) -> Option<usize>
    ensures { result ≡ place_in (slice_get places.now context) }
{
    match places.get(context) {
        Some(place) => *place,
        None => None,
    }
}

/// The place of the parent of a result's context.
fn parent_place(tree: &Tree, ran: &NodeResult, places: &[Option<usize>]) -> Option<usize>
    requires { ran.now.node < length tree.now }
    ensures { (path : List ℕ) × IsPathOf tree.now ran.now.node path × (result ≡ place_of_next places.now (slice_get path 1)) }
{
    match tree.path(ran.node).as_slice().get(1) {
        Some(parent) => place_in(places, *parent),
        None => None,
    }
}

/// The last segment of an id.
fn name_of(alloc: Global, id: &UniqueId) -> Result<String, AllocError>
    ensures { IfOk result (λ name. string_bytes name ≡ name_text id.now) }
{
    let last = match UniqueId::from_parts(alloc, &[id.segment(id.len() - 1)]) {
        Ok(last) => last,
        Err(_) => return Err(AllocError),
    };
    let mut name = String::new(alloc);
    last.write_to(&mut name)?;
    Ok(name)
}
