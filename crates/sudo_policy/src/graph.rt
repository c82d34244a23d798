//! Aliases as a graph of numbers: the aliases that reach a cycle, and the depth and width of the others.
ghost use Rattle.std.specs.Prelude.{◌≡◌, ◌<◌, ℕ, IfOk, OnOk, Some, Option, length, slice_get};
ghost use Rattle.sudo_policy.specs.declared.graph.State.{State};
ghost use Rattle.sudo_policy.specs.Following.{option_join};
ghost use Rattle.sudo_policy.specs.Body.Graph.{Edge, IsClosed, StatesHold, OpenLead, OpenNear, NoneOpen, Turned};
ghost use Rattle.sudo_policy.specs.Body.Graph.{IsSettled, measure_of_both, deeper, link_measure, done_measure};

use std::alloc::{AllocError, Global};
use sudo_text::Seq;

/// The number of definitions nested in one another, and the number of members, both counted up to just beyond the
/// limits.
#[derive(Clone, Copy, Debug, PartialEq, Eq)]
pub(crate) struct Measure {
    pub(crate) depth: u32,
    pub(crate) width: u32,
}

/// The state of the visit of an alias.
#[derive(Clone, Copy, Debug, PartialEq, Eq)]
pub(crate) enum State {
    /// Not visited.
    New,
    /// Its visit has begun: its members are being visited.
    Open,
    /// It reaches no cycle. Contains the measure of its definition.
    Done(Measure),
    /// It reaches a cycle.
    Looped,
}

impl Measure {
    const NO_MEMBER: Measure = Measure { depth: 0, width: 0 };

    const ONE_MEMBER: Measure = Measure { depth: 0, width: 1 };

    // Returns the measure of this list followed by the other.
    fn beside(self, other: Measure) -> Measure
        ensures { result ≡ measure_of_both self other }
    {
        Measure {
            depth: self.depth.max(other.depth),
            width: self.width.saturating_add(other.width).min(65_537),
        }
    }

    // Returns the measure of an alias from that of its definition.
    fn deeper(self) -> Measure
        ensures { result ≡ deeper self }
    {
        Measure {
            depth: self.depth.saturating_add(1).min(65),
            width: self.width,
        }
    }
}

// Returns the measure of one link, or `None` if it leads to an alias that is not done.
fn link_measure(states: &[State], link: Option<usize>) -> Option<Measure>
    ensures { result ≡ link_measure (done_measure states.now) link }
{
    let Some(next) = link else {
        return Some(Measure::ONE_MEMBER);
    };
    match states.get(next) {
        Some(State::Done(measure)) => Some(measure.deeper()),
        _ => None,
    }
}

// Returns the measure of both lists together, if both are known.
fn joined(a: Option<Measure>, b: Option<Measure>) -> Option<Measure>
    ensures { result ≡ option_join measure_of_both a b }
{
    match (a, b) {
        (Some(a), Some(b)) => Some(a.beside(b)),
        _ => None,
    }
}

/// The result of visiting all aliases.
#[derive(Drop)]
pub(crate) struct Visited {
    /// For each alias, whether it reaches a cycle, and otherwise the measure of its definition.
    pub(crate) states: Vec<State>,
    /// The aliases that reach a cycle, in the order in which their visits ended.
    pub(crate) looped: Vec<usize>,
}

// Visits a new alias and, before the visit ends, the new ones that it reaches.
#[cycle(visiting)]
fn visit(
    links: &[Seq<Option<usize>>],
    states: &mut [State],
    looped: &mut Vec<usize>,
    node: usize,
) -> Result<(), AllocError>
    requires closed { IsClosed links.now }
    requires sizes { length states.old ≡ length links.now }
    requires new { slice_get states.old node ≡ Some State.New }
    requires held { StatesHold links.now states.old }
    requires lead { OpenLead links.now states.old node }
    ensures holds { OnOk result (StatesHold links.now states.new) }
    ensures turned { OnOk result (Turned states.old states.new) }
    ensures settled { OnOk result ((s : State) → slice_get states.new node ≡ Some s → IsSettled s) }
{
    states[node] = State::Open;
    let row = links[node].as_slice();
    let mut measure = Some(Measure::NO_MEMBER);
    let mut at = row.len();
    while at > 0 {
        at -= 1;
        let link = row[at];
        visit_link(links, states, looped, node, link)?;
        measure = joined(link_measure(states, link), measure);
    }
    states[node] = match measure {
        Some(measure) => State::Done(measure),
        None => {
            looped.push(node)?;
            State::Looped
        }
    };
    Ok(())
}

// Visits the alias to which a link of an open one leads, if it is new.
#[cycle(visiting)]
fn visit_link(
    links: &[Seq<Option<usize>>],
    states: &mut [State],
    looped: &mut Vec<usize>,
    from: usize,
    link: Option<usize>,
) -> Result<(), AllocError>
    requires closed { IsClosed links.now }
    requires sizes { length states.old ≡ length links.now }
    requires held { StatesHold links.now states.old }
    requires lead { OpenNear links.now states.old from }
    requires edge { (next : ℕ) → link ≡ Some next → Edge links.now from next }
    ensures holds { OnOk result (StatesHold links.now states.new) }
    ensures turned { OnOk result (Turned states.old states.new) }
    ensures visited { OnOk result ((next : ℕ) → link ≡ Some next →
        slice_get states.new next ≡ Some State.New → ⊥) }
{
    if let Some(next) = link {
        if let State::New = states[next] {
            visit(links, states, looped, next)?;
        }
    }
    Ok(())
}

/// Visits all aliases and returns the result.
pub(crate) fn all_visited(
    alloc: Global,
    links: &[Seq<Option<usize>>],
) -> Result<Visited, AllocError>
    requires closed { IsClosed links.now }
    ensures holds { IfOk result (λ visited. StatesHold links.now visited.states.items) }
    ensures sizes { IfOk result (λ visited. length visited.states.items ≡ length links.now) }
    ensures settled { IfOk result (λ visited.
        (i : ℕ) (s : State) → slice_get visited.states.items i ≡ Some s → IsSettled s) }
{
    let mut states = vec![in alloc; State::New; links.len()]?;
    let mut looped = Vec::new(alloc);
    visit_all(links, states.as_mut_slice(), &mut looped)?;
    Ok(Visited { states, looped })
}

// Visits each of the aliases.
fn visit_all(
    links: &[Seq<Option<usize>>],
    states: &mut [State],
    looped: &mut Vec<usize>,
) -> Result<(), AllocError>
    requires closed { IsClosed links.now }
    requires sizes { length states.old ≡ length links.now }
    requires new { (i : ℕ) (s : State) → slice_get states.old i ≡ Some s → s ≡ State.New }
    ensures holds { OnOk result (StatesHold links.now states.new) }
    ensures settled { OnOk result ((i : ℕ) (s : State) →
        slice_get states.new i ≡ Some s → IsSettled s) }
{
    for node in 0..states.len() {
        visit_new(links, states, looped, node)?;
    }
    Ok(())
}

// Visits an alias if it is new, while none is open.
fn visit_new(
    links: &[Seq<Option<usize>>],
    states: &mut [State],
    looped: &mut Vec<usize>,
    node: usize,
) -> Result<(), AllocError>
    requires closed { IsClosed links.now }
    requires sizes { length states.old ≡ length links.now }
    requires inside { node < length states.old }
    requires held { StatesHold links.now states.old }
    requires calm { NoneOpen states.old }
    ensures holds { OnOk result (StatesHold links.now states.new) }
    ensures turned { OnOk result (Turned states.old states.new) }
    ensures settled { OnOk result ((s : State) → slice_get states.new node ≡ Some s → IsSettled s) }
{
    if let State::New = states[node] {
        visit(links, states, looped, node)?;
    }
    Ok(())
}
