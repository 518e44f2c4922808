#![tactic(auto)]

// A plan against a table: refusals 13 to 15. A plan without these flaws is a `Plan`, whose type says
// that each node's parent links are links of it.
ghost use Rattle.std.specs.Prelude.{◌≡◌, ◌+◌, ◌*◌, ◌<◌, ◌≤◌, length, MatchResult, Some, None, Option, ℕ, false};
ghost use Rattle.network.specs.declared.Colour.{Colour};
ghost use Rattle.network.specs.Search.{first};
ghost use Rattle.reader.specs.Network.{graph};
ghost use Rattle.pairs.specs.Flaw.{record_flaw, misused, parent_flaw, flaw_of, tree_of, answer_for};

use network::Colour;
use reader::{Answer, Network};
use records::{Link, PlanRecord};

/// Why a plan does not fit a table.
#[derive(Clone, Copy, Debug, PartialEq, Eq, Hash)]
pub enum Flaw {
    /// 13: the length is not 8 bytes a node.
    Length { length: usize },

    /// 14: a record's kind, byte 1 or node number is wrong: the lowest such record and offset.
    Record { record: usize, offset: usize },

    /// 15: a parent is no link of its node, or 65,535 is misused: the lowest such node, blue first.
    Parent { node: usize, colour: Colour },
}

impl From<Flaw> for Answer {
    ghost from_gives = { λ flaw answer. answer ≡ answer_for flaw };

    fn from(flaw: Flaw) -> Answer {
        match flaw {
            Flaw::Length { length } => Answer::new(13, length, 0),
            Flaw::Record { record, offset } => Answer::new(14, record, offset),
            // (A colour's number is its place in the enum.)
            Flaw::Parent { node, colour } => Answer::new(15, node, colour as usize),
        }
    }
}

// The kind of a plan's record.
const KIND: u8 = 3;

// What the source holds for a parent link.
const NONE: usize = 65535;

// Whether a node's parent in a colour is no link of it, or 65,535 is misused.
#[tactic(auto, unfolding(crate::specs::Flaw::misused, network::specs::Graph::touches, records::specs::Plan::entry_of))]
fn misused(network: Network, parents: PlanRecord, colour: Colour) -> bool
    ensures { result ≡ misused (graph network.entry) (tree_of parents.entry.plan.now) parents.entry.node colour }
{
    let l = usize::from(parents.entry(colour));
    if parents.node == network.shape.source {
        return l != NONE;
    }
    if network.shape.links <= l {
        return true;
    }
    let Link { near, far } = Link::at(network.ends, l);
    near != parents.node && far != parents.node
}

// The first flaw of a node's parents, blue before red.
#[tactic(auto, unfolding(crate::specs::Flaw::parent_flaw))]
fn parent_flaw(network: Network, parents: PlanRecord) -> Option<Flaw>
    ensures { result ≡ parent_flaw (graph network.entry) (tree_of parents.entry.plan.now) parents.entry.node }
{
    let node = parents.node;
    if misused(network, parents, Colour::Blue) {
        let colour = Colour::Blue;
        return Some(Flaw::Parent { node, colour });
    }
    if misused(network, parents, Colour::Red) {
        let colour = Colour::Red;
        return Some(Flaw::Parent { node, colour });
    }
    None
}

/// A plan without flaw: each node's parent links are links of it, and the source has none.
#[derive(Clone, Copy)]
pub struct Plan<'a> {
    pub network: Network<'a>,
    pub bytes: &'a [u8],
    pub ghost long: { 8 * network.shape.nodes ≤ length bytes.now },
    pub ghost used: { (colour : Colour) (v : ℕ) → v < network.shape.nodes
        → misused (graph network) (tree_of bytes.now) v colour ≡ false },
}

impl<'a> Plan<'a> {
    /// Judges a plan: 13, then 14 over all records, then 15 over all nodes.
    #[tactic(auto, unfolding(crate::specs::Flaw::flaw_of))]
    pub fn read(network: Network<'a>, bytes: &'a [u8]) -> Result<Plan<'a>, Flaw>
        ensures { MatchResult result
            (λ p. (graph p.network ≡ graph network.entry) × (p.bytes.now ≡ bytes.now)
            × (flaw_of (graph network.entry) bytes.now ≡ None))
            (λ e. flaw_of (graph network.entry) bytes.now ≡ Some e) }
    {
        let length = bytes.len();
        if length != 8 * network.shape.nodes {
            return Err(Flaw::Length { length });
        }
        let nodes = network.shape.nodes;
        let wrong = search::first(nodes, |node| {
            let offset = PlanRecord::at(bytes, KIND, node).bad()?;
            Some(Flaw::Record {
                record: node,
                offset,
            })
        });
        if let Some(flaw) = wrong {
            return Err(flaw);
        }
        let misused = search::first(
            nodes,
            |node| parent_flaw(network, PlanRecord::at(bytes, KIND, node)),
        );
        if let Some(flaw) = misused {
            return Err(flaw);
        }
        Ok(Plan { network, bytes })
    }
}
