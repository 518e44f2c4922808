#![tactic(auto)]

// The table reader: node records, then link records. Every input has an answer: a table's shape, or
// the refusal (2 to 8) of document 01.
ghost use Rattle.std.specs.Prelude.{◌≡◌, ◌+◌, ◌*◌, ◌<◌, ◌≤◌, length, MatchResult};
ghost use Rattle.reader.specs.Answer.{answer, fine, answer_for};
ghost use Rattle.reader.specs.Table.{place_of, node_of, link_of, record_of, end_of, read_of};
ghost use Rattle.reader.specs.Ends.{filled_of, Filled};

use records::{Kind, Link, Record};

/// A refusal's number, place and other; success is 0, 0, 0. This is the form that hosts are given, so
/// the refusal is a number here. (`as`: std converts no usize to a u64.)
#[derive(Clone, Copy, Debug, PartialEq, Eq, Hash)]
pub struct Answer {
    pub number: u16,
    pub place: u64,
    pub other: u64,
}

impl Answer {
    /// The answer with these three.
    pub fn new(number: u16, place: usize, other: usize) -> Answer
        ensures { result ≡ answer number place other }
    {
        Answer {
            number,
            place: place as u64,
            other: other as u64,
        }
    }

    /// Success.
    pub fn success() -> Answer
        ensures { result ≡ fine }
    {
        Answer::new(0, 0, 0)
    }
}

/// Why a table is refused. A record is named by its place.
#[derive(Clone, Copy, Debug, PartialEq, Eq, Hash)]
pub enum Fault {
    /// 2: the table is empty, or its length is no multiple of 8.
    Length { length: usize },

    /// 3: a bad kind, role or filler byte, or a node record after a link.
    Byte { record: usize, offset: usize },

    /// 4: a node's number is not its place, or the node is the 257th.
    Number { record: usize, number: usize },

    /// 5: a second source.
    SecondSource { record: usize },

    /// 5: no source among so many nodes.
    NoSource { nodes: usize },

    /// 6: a link's end is no node.
    End { record: usize, end: usize },

    /// 7: a link from a node to itself.
    SelfLink { record: usize, node: usize },

    /// 8: the 1,025th link.
    TooManyLinks { record: usize },
}

impl From<Fault> for Answer {
    ghost from_gives = { λ fault answer. answer ≡ answer_for fault };

    fn from(fault: Fault) -> Answer {
        match fault {
            Fault::Length { length } => Answer::new(2, length, 0),
            Fault::Byte { record, offset } => Answer::new(3, record, offset),
            Fault::Number { record, number } => Answer::new(4, record, number),
            Fault::SecondSource { record } => Answer::new(5, record, 0),
            Fault::NoSource { nodes } => Answer::new(5, nodes, 1),
            Fault::End { record, end } => Answer::new(6, record, end),
            Fault::SelfLink { record, node } => Answer::new(7, record, node),
            Fault::TooManyLinks { record } => Answer::new(8, record, 0),
        }
    }
}

/// The answer of an outcome: that of its refusal, or success.
pub fn answered<T: Drop, R: Into<Answer>>(outcome: Result<T, R>) -> Answer
    ensures { MatchResult outcome (λ _. result ≡ fine) (λ cause. R.converts cause result) }
{
    match outcome {
        Ok(_) => Answer::success(),
        Err(fault) => fault.into(),
    }
}

/// What a table has.
#[derive(Clone, Copy, Debug, PartialEq, Eq, Hash)]
pub struct Shape {
    pub nodes: usize,
    pub links: usize,
    pub source: usize,
}

// What was read of a table so far. (A shape but for the source: a type parameter for it would stand
// wherever a `Shape` is named.)
#[derive(Clone, Copy)]
struct Tally {
    nodes: usize,
    links: usize,
    source: Option<usize>,
}

impl Tally {
    // After all records: a table has a source.
    #[tactic(auto, unfolding(crate::specs::Table::end_of))]
    fn end(self) -> Result<Shape, Fault>
        ensures { result ≡ end_of self }
    {
        let Some(source) = self.source else {
            return Err(Fault::NoSource { nodes: self.nodes });
        };
        Ok(Shape {
            nodes: self.nodes,
            links: self.links,
            source,
        })
    }
}

// What was read so far, and the next record.
#[derive(Clone, Copy)]
struct Step<'a> {
    tally: Tally,
    next: Record<'a>,
    ghost here: { next.place ≡ place_of tally },
}

impl<'a> Step<'a> {
    // A node record: refused by 3, 4 or 5, or one node more.
    #[tactic(auto, unfolding(crate::specs::Table::node_of, crate::specs::Table::refuse_if, crate::specs::Table::refuse_at))]
    fn node(self) -> Result<Tally, Fault>
        ensures { result ≡ node_of self.entry.next.table.now self.entry.tally }
    {
        let Step { tally, next } = self;
        let record = next.place;
        if 0 < tally.links {
            return Err(Fault::Byte { record, offset: 0 });
        }
        if let Some(offset) = next.bad_node() {
            return Err(Fault::Byte { record, offset });
        }
        let number = next.number();
        if number != record {
            return Err(Fault::Number { record, number });
        }
        if 256 <= record {
            return Err(Fault::Number { record, number });
        }
        let nodes = tally.nodes + 1;
        // (`bad_node` has shown that the role is 0 or 1; an enum would have an arm for the rest.)
        if next.role() == 0 {
            return Ok(Tally { nodes, ..tally });
        }
        if tally.source.is_some() {
            return Err(Fault::SecondSource { record });
        }
        Ok(Tally {
            nodes,
            source: Some(record),
            ..tally
        })
    }

    // A link record: refused by 3, 8, 6 or 7, or one link more.
    #[tactic(auto, unfolding(crate::specs::Table::link_of, crate::specs::Table::refuse_if, crate::specs::Table::refuse_at))]
    fn link(self) -> Result<Tally, Fault>
        ensures { result ≡ link_of self.entry.next.table.now self.entry.tally }
    {
        let Step { tally, next } = self;
        let record = next.place;
        if let Some(offset) = next.bad_link() {
            return Err(Fault::Byte { record, offset });
        }
        if 1024 <= tally.links {
            return Err(Fault::TooManyLinks { record });
        }
        let Link { near, far } = next.link();
        if tally.nodes <= near {
            return Err(Fault::End { record, end: near });
        }
        if tally.nodes <= far {
            return Err(Fault::End { record, end: far });
        }
        if near == far {
            return Err(Fault::SelfLink { record, node: near });
        }
        Ok(Tally {
            links: tally.links + 1,
            ..tally
        })
    }

    // The next record, by its kind.
    #[tactic(auto, unfolding(crate::specs::Table::record_of))]
    fn read(self) -> Result<Tally, Fault>
        ensures { result ≡ record_of self.entry.next.table.now self.entry.tally }
    {
        match Kind::try_from(self.next.kind()) {
            Ok(Kind::Node) => self.node(),
            Ok(Kind::Link) => self.link(),
            Err(_) => Err(Fault::Byte {
                record: self.next.place,
                offset: 0,
            }),
        }
    }
}

/// Reads a table: its shape, or why it is refused.
#[tactic(auto, using(crate::proofs::Turn::turns), unfolding(crate::specs::Table::read_of, crate::specs::Table::refuse_if))]
pub fn read(table: &[u8]) -> Result<Shape, Fault>
    ensures { result ≡ read_of table.now }
{
    let length = table.len();
    if length == 0 || length % 8 != 0 {
        return Err(Fault::Length { length });
    }
    let mut tally = Tally {
        nodes: 0,
        links: 0,
        source: None,
    };
    for place in 0..length / 8 {
        let next = Record::at(table, place);
        tally = Step { tally, next }.read()?;
    }
    tally.end()
}

/// Fills the start of `ends` with the ends of the table's links, two numbers a link; the rest stays.
/// Where the shape is no table's, or the records or the ends have no room, all of it stays. (The list is
/// lent, since there is no heap. `as`: an end has two bytes, and `try_from` would have an error that
/// never comes.)
#[tactic(auto, using(crate::proofs::Ends::ends_more), unfolding(crate::specs::Ends::filled_of, crate::specs::Ends::fits, crate::specs::Ends::ends_of, crate::specs::Ends::ends_up_to))]
pub fn fill(table: &[u8], shape: Shape, ends: &mut [u16])
    ensures { ends.new ≡ filled_of table.now shape ends.old }
{
    let Shape { nodes, links, .. } = shape;
    if 256 < nodes || 1024 < links {
        return;
    }
    if table.len() < 8 * (nodes + links) || ends.len() < 2 * links {
        return;
    }
    for l in 0..links {
        let Link { near, far } = Record::at(table, nodes + l).link();
        ends[2 * l] = near as u16;
        ends[2 * l + 1] = far as u16;
    }
}

/// A table that was read, with the ends of its links in a list that is lent, since there is no heap.
/// (The list may be longer than the links, so their number stands in the shape.)
#[derive(Clone, Copy)]
pub struct Network<'a> {
    pub shape: Shape,
    pub ends: &'a [u16],
    pub ghost filled: { Filled shape ends.now },
}

impl<'a> Network<'a> {
    ghost use Rattle.reader.specs.Ends.{ends_of};

    /// Reads a table, and lends it as a network: the start of `ends` holds the ends of its links.
    pub fn read(table: &[u8], ends: &'a mut [u16; 2048]) -> Result<Network<'a>, Fault>
        ensures { MatchResult result
            (λ n. (read_of table.now ≡ Ok n.shape) × (n.ends.now ≡ ends_of table.now n.shape))
            (λ fault. read_of table.now ≡ Err fault) }
    {
        let shape = read(table)?;
        fill(table, shape, ends);
        Ok(Network {
            shape,
            ends: &ends[..2 * shape.links],
        })
    }
}
