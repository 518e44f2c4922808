#![tactic(auto)]

// What the bytes of tables and plans hold, and the list of link ends that a table is read into. This
// is the one place that knows byte offsets. specs/ says what each accessor answers.
ghost use Rattle.std.specs.Prelude.{◌≡◌, ◌++◌, ◌+◌, ◌*◌, ◌<◌, ◌≤◌, length, drop, slice_index};
ghost use Rattle.std.proofs.lemmas.List.Edits.{sets};
ghost use Rattle.network.specs.Graph.{near_end, far_end, across};
ghost use Rattle.network.specs.Chain.{trees_of};
ghost use Rattle.records.specs.Bytes.{two_of, Decodes};
ghost use Rattle.records.specs.Plan.{size_of, record_of, plan_bytes};

use network::Colour;

/// The kind of a table's record.
#[derive(Clone, Copy, Debug, PartialEq, Eq, Hash)]
pub enum Kind {
    Node,
    Link,
}

/// A byte that names no kind of a table's record.
#[derive(Clone, Copy, Debug, PartialEq, Eq, Hash)]
pub struct UnknownKind(pub u8);

impl TryFrom<u8> for Kind {
    type Error = UnknownKind;

    ghost try_from_gives = { Decodes };

    fn try_from(byte: u8) -> Result<Kind, UnknownKind> {
        match byte {
            1 => Ok(Kind::Node),
            2 => Ok(Kind::Link),
            _ => Err(UnknownKind(byte)),
        }
    }
}

// The two-byte number at byte `at`, low byte first.
#[tactic(auto, unfolding(crate::specs::Bytes::two_of))]
fn two_bytes(s: &[u8], at: usize) -> u16
    requires { at + 2 ≤ length s.now }
    ensures { result ≡ two_of s.now at }
{
    u16::from_le_bytes([s[at], s[at + 1]])
}

/// The two-byte number at byte `at`, low byte first, as an index with its bound.
pub fn two(s: &[u8], at: usize) -> usize
    requires { at + 2 ≤ length s.now }
    ensures number { result ≡ two_of s.now at }
    ensures within { result < 65536 }
{
    usize::from(two_bytes(s, at))
}

/// The two ends of a link.
#[derive(Clone, Copy, Debug, PartialEq, Eq, Hash)]
pub struct Link {
    pub near: usize,
    pub far: usize,
}

impl Link {
    /// Link l of a list of ends, two numbers a link. (The list is lent, since there is no heap, and no
    /// other function takes such a list and a link.)
    pub fn at(ends: &[u16], l: usize) -> Link
        requires { 2 * l + 1 < length ends.now }
        ensures near { result.near ≡ near_end ends.now l }
        ensures far { result.far ≡ far_end ends.now l }
    {
        Link {
            near: usize::from(ends[2 * l]),
            far: usize::from(ends[2 * l + 1]),
        }
    }

    /// The other end, seen from the end v.
    pub fn beyond(self, v: usize) -> usize
        ensures { result ≡ across self.near self.far v }
    {
        if self.near == v { self.far } else { self.near }
    }
}

/// A record of a table, by its place.
#[derive(Clone, Copy)]
pub struct Record<'a> {
    pub table: &'a [u8],
    pub place: usize,
    ghost inside: { 8 * place + 8 ≤ length table.now },
}

impl<'a> Record<'a> {
    ghost use Rattle.records.specs.Bytes.{kind_of, role_of, number_of, one_end, other_end, above, bad_tail, bad_node, bad_link};

    /// Record `place` of a table.
    pub fn at(table: &'a [u8], place: usize) -> Record<'a>
        requires { 8 * place + 8 ≤ length table.now }
        ensures table { result.table.now ≡ table.now }
        ensures place { result.place ≡ place }
    {
        Record { table, place }
    }

    // The byte at offset k.
    fn byte(self, k: usize) -> u8
        requires { k < 8 }
        ensures { result ≡ slice_index self.entry.table.now (8 * self.entry.place + k) }
    {
        self.table[8 * self.place + k]
    }

    /// Byte 0.
    pub fn kind(self) -> u8
        ensures { result ≡ kind_of self.entry.table.now self.entry.place }
    {
        self.byte(0)
    }

    /// Byte 1 of a node record.
    pub fn role(self) -> u8
        ensures { result ≡ role_of self.entry.table.now self.entry.place }
    {
        self.byte(1)
    }

    /// The number that a node record holds.
    pub fn number(self) -> usize
        ensures number { result ≡ number_of self.entry.table.now self.entry.place }
        ensures within { result < 65536 }
    {
        two(self.table, 8 * self.place + 2)
    }

    /// The two ends of a link record.
    pub fn link(self) -> Link
        ensures near { result.near ≡ one_end self.entry.table.now self.entry.place }
        ensures far { result.far ≡ other_end self.entry.table.now self.entry.place }
        ensures within { (result.near < 65536) × (result.far < 65536) }
    {
        Link {
            near: two(self.table, 8 * self.place + 2),
            far: two(self.table, 8 * self.place + 4),
        }
    }

    // The offset k, where the byte there is above the most that it may be.
    fn above(self, k: usize, most: u8) -> Option<usize>
        requires { k < 8 }
        ensures { result ≡ above self.entry.table.now self.entry.place k most }
    {
        if most < self.byte(k) { Some(k) } else { None }
    }

    // The lower of the last two bytes that is not 0.
    #[tactic(auto, unfolding(crate::specs::Bytes::bad_tail))]
    fn bad_tail(self) -> Option<usize>
        ensures { result ≡ bad_tail self.entry.table.now self.entry.place }
    {
        if let Some(offset) = self.above(6, 0) {
            return Some(offset);
        }
        self.above(7, 0)
    }

    /// The offset of the lowest bad byte of a node record behind its kind. (Each test ends it: `or` would
    /// work out all of them, and takes twice the time.)
    #[tactic(auto, unfolding(crate::specs::Bytes::bad_node))]
    pub fn bad_node(self) -> Option<usize>
        ensures { result ≡ bad_node self.entry.table.now self.entry.place }
    {
        if let Some(offset) = self.above(1, 1) {
            return Some(offset);
        }
        if let Some(offset) = self.above(4, 0) {
            return Some(offset);
        }
        if let Some(offset) = self.above(5, 0) {
            return Some(offset);
        }
        self.bad_tail()
    }

    /// The same of a link record.
    #[tactic(auto, unfolding(crate::specs::Bytes::bad_link))]
    pub fn bad_link(self) -> Option<usize>
        ensures { result ≡ bad_link self.entry.table.now self.entry.place }
    {
        if let Some(offset) = self.above(1, 0) {
            return Some(offset);
        }
        self.bad_tail()
    }
}

/// The record of a node in a plan, by the plan's kind. (The kind is a byte and no enum: any byte may
/// be asked for, and `bad` tells a record of another.)
#[derive(Clone, Copy)]
pub struct PlanRecord<'a> {
    pub plan: &'a [u8],
    pub kind: u8,
    pub node: usize,
    ghost inside: { size_of kind * node + size_of kind ≤ length plan.now },
}

impl<'a> PlanRecord<'a> {
    ghost use Rattle.network.specs.declared.Colour.{Colour};
    ghost use Rattle.records.specs.Plan.{entry_of, bad_plan};

    /// The record of this node.
    pub fn at(plan: &'a [u8], kind: u8, node: usize) -> PlanRecord<'a>
        requires { size_of kind * node + size_of kind ≤ length plan.now }
        ensures plan { result.plan.now ≡ plan.now }
        ensures kind { result.kind ≡ kind }
        ensures node { result.node ≡ node }
    {
        PlanRecord { plan, kind, node }
    }

    /// The parent link of the node: a number is a colour too, 0 blue, any other red.
    #[tactic(auto, unfolding(crate::specs::Plan::entry_of))]
    pub fn entry<C: Into<Colour>>(self, colour: C) -> u16
        ensures { (c : Colour) × C.converts colour c
            × (result ≡ entry_of self.entry.kind self.entry.plan.now self.entry.node c) }
    {
        let offset = match colour.into() {
            Colour::Blue => 4,
            Colour::Red => 6,
        };
        two_bytes(self.plan, 8 * self.node + offset)
    }

    /// The lowest of the offsets 0, 1 and 2 that is wrong.
    #[tactic(auto, unfolding(crate::specs::Plan::bad_plan))]
    pub fn bad(self) -> Option<usize>
        ensures { result ≡ bad_plan self.entry.kind self.entry.plan.now self.entry.node }
    {
        let at = 8 * self.node;
        if self.plan[at] != self.kind {
            return Some(0);
        }
        if self.plan[at + 1] != 0 {
            return Some(1);
        }
        if two(self.plan, at + 2) != self.node {
            return Some(2);
        }
        None
    }
}

// The bytes of a node's record. (The kind is a byte, as in `PlanRecord`.)
#[tactic(auto, unfolding(crate::specs::Plan::record_of))]
fn record_bytes(kind: u8, node: u16, blue: u16, red: u16) -> [u8; 8]
    ensures { result ≡ record_of kind node blue red }
{
    let [number_low, number_high] = node.to_le_bytes();
    let [blue_low, blue_high] = blue.to_le_bytes();
    let [red_low, red_high] = red.to_le_bytes();
    [
        kind,
        0,
        number_low,
        number_high,
        blue_low,
        blue_high,
        red_low,
        red_high,
    ]
}

/// Writes a node's record into a plan; nothing else changes. (The kind is a byte, as in `PlanRecord`.
/// That is lent to be read, and a second type to be written would serve these two functions alone.)
pub fn put_record(plan: &mut [u8], kind: u8, node: u16, blue: u16, red: u16)
    requires { size_of kind * node + size_of kind ≤ length plan.old }
    ensures { plan.new ≡ sets plan.old (size_of kind * node) (record_of kind node blue red) }
{
    let at = 8 * usize::from(node);
    // (Byte by byte: `copy_from_slice` takes twice the time in `put_plan`.)
    let bytes = record_bytes(kind, node, blue, red);
    for k in 0..8 {
        plan[at + k] = bytes[k];
    }
}

/// Writes the plan of n nodes to the start of a buffer; the rest stays. (The two lists may be longer
/// than n, so n stands beside them. `as`: n is at most 256, and `try_from` would have an error that
/// never comes.)
#[tactic(auto, unfolding(crate::specs::Plan::plan_bytes))]
pub fn put_plan(plan: &mut [u8], kind: u8, n: usize, blue: &[u16], red: &[u16])
    requires { (n ≤ 256) × (n ≤ length blue.now) × (n ≤ length red.now)
        × (size_of kind * n ≤ length plan.old) }
    ensures { plan.new
        ≡ plan_bytes kind n (trees_of blue.now red.now) ++ drop (size_of kind * n) plan.old }
{
    for v in 0..n {
        put_record(plan, kind, v as u16, blue[v], red[v]);
    }
}
