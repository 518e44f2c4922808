#![tactic(auto)]

// Refusals 10 to 12: what a loss cuts off from the source. Reads a network by its links alone.
ghost use Rattle.std.specs.Prelude.{◌≡◌, not, ◌&&◌, ℕ, ◌+◌, ◌≤◌, ◌<◌, ◌==◌, nat_lt};
ghost use Rattle.network.specs.Way.{has_way};
ghost use Rattle.choices.specs.Refuse.{missed, cutter, refusal};
ghost use Rattle.nodeset.specs.Set.{has};
ghost use Rattle.reader.specs.Network.{graph};
ghost use Rattle.cuts.specs.Reached.{gain, turn, Passed};
ghost use Rattle.cuts.specs.Cut.{missed_by, cut_by, refusal_of, refused, answer_to};

use nodeset::NodeSet;
use reader::{Answer, Network};
use records::Link;

/// A loss that cuts a node off, by its place among those that are tried, and the lowest such node.
#[derive(Clone, Copy, Debug, PartialEq, Eq, Hash)]
pub struct Cut {
    pub place: usize,
    pub node: usize,
}

/// Why no plan protects a network.
#[derive(Clone, Copy, Debug, PartialEq, Eq, Hash)]
pub enum CutOff {
    /// 10: a node is not joined to the source: the lowest such.
    Unjoined { node: usize },

    /// 11: a node cuts others off.
    ByNode(Cut),

    /// 12: a link cuts others off.
    ByLink(Cut),
}

impl From<CutOff> for Answer {
    ghost from_gives = { λ cause answer. answer ≡ answer_to (refusal_of cause) };

    fn from(cause: CutOff) -> Answer {
        match cause {
            CutOff::Unjoined { node } => Answer::new(10, node, 0),
            CutOff::ByNode(cut) => Answer::new(11, cut.place, cut.node),
            CutOff::ByLink(cut) => Answer::new(12, cut.place, cut.node),
        }
    }
}

// A loss is a code and no enum, as everywhere in this project: node k is k, link l is 256 + l, and
// codes from 1,280 name nothing. So one law serves nodes and links.
const FIRST_LINK: usize = 256;

const NO_LOSS: usize = 1280;

// The i-th of m numbers, up from 0 or down to it. (An iterator passed to `pass` would want clauses
// that it ends, that each of its items is a link, and that each link is an item.)
fn turn(up: bool, m: usize, i: usize) -> usize
    requires { i < m }
    ensures { result ≡ turn up m i }
{
    if up { i } else { m - 1 - i }
}

// A network without the part that a loss names by its code.
#[derive(Clone, Copy)]
struct Without<'a> {
    network: Network<'a>,
    loss: usize,
}

impl<'a> Without<'a> {
    // The node that a set gains by link l. (Most links have both ends in or both out.)
    fn gain(self, l: usize, set: NodeSet) -> Option<usize>
        requires { l < self.network.shape.links }
        ensures { result ≡ gain (graph self.entry.network) self.entry.loss (has set.words) l }
    {
        let Link { near, far } = Link::at(self.network.ends, l);
        let near_in = set.has(near);
        if near_in == set.has(far) {
            return None;
        }
        if self.loss == FIRST_LINK + l {
            return None;
        }
        let new = if near_in { far } else { near };
        if self.loss == new { None } else { Some(new) }
    }

    // One pass over all links, up the list or down it: the set that it leaves, where it grew.
    fn pass(self, up: bool, set: NodeSet) -> Option<NodeSet>
        ensures { Passed (graph self.entry.network) self.entry.loss up set.words
            self.entry.network.shape.links result }
    {
        let links = self.network.shape.links;
        let mut grown = set;
        for i in 0..links {
            if let Some(node) = self.gain(turn(up, links, i), grown) {
                grown = grown.with(node);
            }
        }
        if grown == set { None } else { Some(grown) }
    }

    // The nodes that are neither in the set nor lost.
    fn others(self, set: NodeSet) -> NodeSet
        ensures { (v : ℕ) → has result.words v
            ≡ nat_lt v self.entry.network.shape.nodes && (not (v == self.entry.loss) && not (has set.words v)) }
    {
        let others = NodeSet::full(self.network.shape.nodes).minus(set);
        if self.loss < FIRST_LINK {
            others.without(self.loss)
        } else {
            others
        }
    }

    // The nodes that have a way to the source. Marks spread from the source, by passes that go up
    // the list and down it by turns, until one adds nothing or no node is left to add.
    fn reach(self) -> NodeSet
        ensures { (v : ℕ) → has result.words v ≡ has_way (graph self.entry.network) self.entry.loss v }
    {
        let mut set = NodeSet::empty().with(self.network.shape.source);
        let mut up = true;
        while let Some(grown) = self.pass(up, set) {
            set = grown;
            up = !up;
            if self.others(set).count() == 0 {
                return set;
            }
        }
        set
    }

    // The lowest node that is cut off.
    fn missed(self) -> Option<usize>
        ensures { result ≡ missed (graph self.entry.network) self.entry.loss }
    {
        self.others(self.reach()).lowest()
    }

    // The same by a loss. (The source is none.)
    fn missed_by(self) -> Option<usize>
        ensures { result ≡ missed_by (graph self.entry.network) self.entry.loss }
    {
        if self.loss == self.network.shape.source {
            return None;
        }
        self.missed()
    }
}

// The lowest of the k losses with codes from `base` on that cuts a node off: they are tried upwards.
fn first_cut(network: Network, base: usize, k: usize) -> Option<Cut>
    requires { base + k ≤ 1280 }
    ensures { (number : ℕ) → cutter (graph network.entry) number k
        (λ i. not (base + i == network.entry.shape.source)) (λ i. base + i) ≡ cut_by number result }
{
    search::first(k, |place| {
        let loss = base + place;
        let node = Without { network, loss }.missed_by()?;
        Some(Cut { place, node })
    })
}

/// 10; then 11, under node protection alone; then 12. (The protection p is a number, as everywhere in
/// this project: the one test is whether it is 0, and the theorems hold of every number.)
pub fn refusal(p: u64, network: Network) -> Result<(), CutOff>
    ensures { refused result ≡ refusal p (graph network.entry) }
{
    let whole = Without {
        network,
        loss: NO_LOSS,
    };
    if let Some(node) = whole.missed() {
        return Err(CutOff::Unjoined { node });
    }
    let asked = p == 0;
    if asked {
        if let Some(cut) = first_cut(network, 0, network.shape.nodes) {
            return Err(CutOff::ByNode(cut));
        }
    }
    if let Some(cut) = first_cut(network, FIRST_LINK, network.shape.links) {
        return Err(CutOff::ByLink(cut));
    }
    Ok(())
}
