// Two graphs given the same calls tell the same.
ghost use Rattle.std.specs.Prelude.{◌≡◌, ◌≤◌, true, length, is_some};
ghost use Rattle.graph_trials.specs.Alike.{Alike};
ghost use Rattle.graph_trials.specs.Calls.{Tells, after as after_call};

use crate::call::{Call, Told};
use graphs::{BitRows, Link, LinkList};
use model::graph::Graph;

// Makes one call. Calls are data, read as lines of text, so that there is a case for each.
pub fn tell<G: Graph>(graph: &mut G, call: Call) -> Told
    ensures answer { Tells (G.Graph.full graph.old) (G.Graph.meaning graph.old) call result }
    ensures after { G.Graph.meaning graph.new ≡ after_call (G.Graph.full graph.old) (G.Graph.meaning graph.old) call }
    ensures memory { G.Graph.full graph.new ≡ G.Graph.full graph.old }
{
    match call {
        Call::GiveLevel(role, level) => Told::Flag(graph.give_level(role, level)),
        Call::AskLevel(principal) => Told::Level(graph.level(principal)),
        Call::Add(upper, lower) => Told::Flag(graph.add(upper, lower)),
        Call::Cut(upper, lower) => Told::Flag(graph.cut(upper, lower)),
        Call::AskLink(upper, lower) => Told::Flag(graph.linked(upper, lower)),
        Call::AskCount => Told::Number(graph.count()),
        Call::AskReach(from, to) => Told::Flag(graph.reaches(from, to)),
        Call::AskAbove(upper, lower) => Told::Flag(graph.is_above(upper, lower)),
        Call::AskMemory => Told::Flag(graph.has_full_memory()),
    }
}

// Makes one call of two graphs: what both tell, if they tell the same. Graphs that mean the same,
// with alike memory, do, and mean the same afterwards.
pub fn tell_both<G: Graph, H: Graph>(one: &mut G, other: &mut H, call: Call) -> Option<Told>
    ensures told { Alike G.Graph H.Graph one.old other.old → is_some result ≡ true }
    ensures after { Alike G.Graph H.Graph one.old other.old → Alike G.Graph H.Graph one.new other.new }
    ensures memory { G.Graph.full one.old ≡ H.Graph.full other.old → G.Graph.full one.new ≡ H.Graph.full other.new }
{
    let first = tell(one, call);
    let second = tell(other, call);
    (first == second).then_some(first)
}

// Whether two graphs tell the same at each of the calls. Graphs that mean the same do.
pub fn tell_alike<G: Graph, H: Graph>(one: &mut G, other: &mut H, calls: &[Call]) -> bool
    ensures { Alike G.Graph H.Graph one.old other.old → result ≡ true }
{
    calls
        .iter()
        .all(|call| tell_both(one, other, *call).is_some())
}

// Whether new bit rows and a new link list tell the same at each of the calls: with full memory
// they do.
pub fn rows_and_list_alike(memory: &mut [Link], calls: &[Call]) -> bool
    ensures { 256 ≤ length memory.old → result ≡ true }
{
    let mut rows = BitRows::new();
    let mut list = LinkList::new(memory);
    tell_alike(&mut rows, &mut list, calls)
}
