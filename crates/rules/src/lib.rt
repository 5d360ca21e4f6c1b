// The rules of document 01: the types that every entry speaks in, at the file's widths, and the limits and sizes that follow
// from them. What the words of 01 mean stands in specs/, in 01's order. Every other crate is code that is proved equal to
// those definitions; this one promises that its sizes are the ones that the definitions give, and that its rules have the definitions'
// numbers and refuse where a test that is needed fails.
#![tactic(auto)]

ghost use Rattle.std.specs.Prelude.{◌≡◌, ◌*◌, ◌-◌, ◌≤◌, ◌<◌};
ghost use Rattle.rules.specs.Limits.{restricted_weight, row_weights, row_length, home_records, file_length, tables_length, most_hops, trail_room, report_room, longest};
ghost use Rattle.rules.specs.Forwarding.{entry_place};
ghost use Rattle.rules.specs.Basics.{need};
ghost use Rattle.rules.specs.Judgement.{refuse};
ghost use Rattle.rules.specs.Verdict.{number_of, broken, says};

use std::fmt;

// The counts of a file's header, at the file's widths.
#[derive(Clone, Copy, PartialEq, Eq)]
pub struct Network {
    pub n: u8,
    pub m: u16,
    pub k: u8,
    pub wmax: u16,
}

// The longest of each thing that a caller lends room for.
#[derive(Clone, Copy, PartialEq, Eq)]
pub struct Longest {
    pub file: usize,
    pub tables: usize,
    pub trail: usize,
    pub report: usize,
}

impl Network {
    pub const MIN_NODES: u8 = 3;

    pub const MAX_NODES: u8 = 32;

    pub const MIN_LINKS: u16 = 3;

    pub const MAX_LINKS: u16 = 128;

    pub const MAX_TOPOLOGIES: u8 = 32;

    pub const MIN_WMAX: u16 = 1;

    pub const MAX_CAP: u8 = 32;

    // The same limits as lengths of lists: an entry for each node, link or topology that there can be, and for each backup weight.
    pub const MOST_NODES: usize = Network::MAX_NODES as usize;

    pub const MOST_LINKS: usize = Network::MAX_LINKS as usize;

    pub const MOST_TOPOLOGIES: usize = Network::MAX_TOPOLOGIES as usize;

    pub const MOST_ROW_WEIGHTS: usize = Network::MOST_TOPOLOGIES * Network::MOST_LINKS;

    // A row of distances has a lane for each destination that there can be; all lanes are worked on, so that the loop's length is fixed.
    pub const LANES: usize = Network::MOST_NODES;

    // The lengths of the file's records; a row is ROW_HEAD bytes and then WEIGHT bytes for each link.
    pub const HEADER: usize = 8;

    pub const LINK: usize = 6;

    pub const HOME: usize = 4;

    pub const ROW_HEAD: usize = 3;

    pub const WEIGHT: usize = 2;

    pub const LONGEST_ROW: usize = Network::ROW_HEAD
        + Network::WEIGHT * (Network::MAX_LINKS as usize);

    pub const LONGEST_FILE: usize = Network::HEADER
        + Network::LINK * (Network::MAX_LINKS as usize)
        + Network::HOME * (Network::MAX_NODES as usize)
        + (Network::MAX_TOPOLOGIES as usize) * Network::LONGEST_ROW;

    // Next hops for topologies 0 to 32, then the alternates.
    pub const LONGEST_TABLES: usize = (Network::MAX_TOPOLOGIES as usize + 2)
        * (Network::MAX_NODES as usize)
        * (Network::MAX_NODES as usize);

    // A run makes at most 2n - 3 hops and visits one node more.
    pub const LONGEST_TRAIL: usize = 2 * (Network::MAX_NODES as usize) - 2;

    // The longest lines of a report: its header line; a line with seven numbers of two digits, a minus sign, a letter, seven spaces
    // and a newline; its last line.
    pub const REPORT_HEADER: usize = 44;

    pub const REPORT_LINE: usize = 24;

    pub const REPORT_LAST: usize = 15;

    pub const LONGEST_REPORT: usize = Network::REPORT_HEADER
        + (Network::MAX_NODES as usize) * (Network::MAX_NODES as usize - 1) * Network::REPORT_LINE
        + Network::REPORT_LAST;

    // A header with these counts; whether they are within their limits is the judge's to say.
    // Rules out: m and wmax exchanged; a count that is out of range set to its limit.
    pub fn header(n: u8, m: u16, k: u8, wmax: u16) -> Network
        ensures { result ≡ record { n = n; m = m; k = k; wmax = wmax } }
    {
        Network { n, m, k, wmax }
    }

    // The sizes above, equal to those of the definitions.
    // Rules out: 9,193 bytes for the longest file; 33,792 bytes for the longest tables, without the alternates.
    pub fn longest() -> Longest
        ensures { result ≡ longest }
    {
        Longest {
            file: Network::LONGEST_FILE,
            tables: Network::LONGEST_TABLES,
            trail: Network::LONGEST_TRAIL,
            report: Network::LONGEST_REPORT,
        }
    }

    // ---- sizes that follow from the counts, whatever they are

    // How many home records there are: n, or none in a graph alone.
    // Rules out: n for a graph alone; k in the place of n.
    pub fn home_records(self) -> usize
        ensures { (result ≡ home_records self) × (result < 256) }
    {
        if self.k == 0 { 0 } else { self.n as usize }
    }

    // How many weights a row has.
    // Rules out: 2m, bytes in the place of weights; n, a weight for each node.
    pub fn row_weights(self) -> usize
        ensures { (result ≡ row_weights self) × (result < 65536) }
    {
        self.m as usize
    }

    // How many weights the rows have together.
    // Rules out: (k + 1) × m, topology 0 counted too; k × n.
    pub fn row_entries(self) -> usize
        ensures { result ≡ self.k * row_weights self }
    {
        times(self.k as usize, self.row_weights())
    }

    // Rules out: 2m, without mark and topology; m + 3, one byte for a weight.
    pub fn row_length(self) -> usize
        ensures { (result ≡ row_length self) × (result < 262144) }
    {
        Network::ROW_HEAD + Network::WEIGHT * self.row_weights()
    }

    // How long the file is.
    // Rules out: a set's length without its rows; one byte more.
    pub fn file_length(self) -> usize
        ensures { result ≡ file_length self }
    {
        let links = Network::LINK * (self.m as usize);
        let homes = Network::HOME * self.home_records();
        let rows = times(self.k as usize, self.row_length());
        Network::HEADER + links + homes + rows
    }

    // How many entries a table has.
    // Rules out: n × (n - 1), without the diagonal; the square cut to 8 bits.
    pub fn table_entries(self) -> usize
        ensures { (result ≡ self.n * self.n) × (result < 65536) }
    {
        times(self.n as usize, self.n as usize)
    }

    // How long the tables are.
    // Rules out: (k + 1) × n × n, without the alternates; two bytes for an entry.
    pub fn tables_length(self) -> usize
        ensures { result ≡ tables_length self }
    {
        let table = self.table_entries();
        times(self.k as usize + 1, table) + table
    }

    // Where the entry of table i for node u and node t stands in the tables.
    // Rules out: node and destination exchanged; the entry of the table after.
    pub fn entry_place(self, i: usize, u: u8, t: u8) -> usize
        requires { i < 65536 }
        ensures { result ≡ entry_place self i u t }
    {
        let table = times(i, self.table_entries());
        let row = times(u as usize, self.n as usize);
        table + (row + (t as usize))
    }

    // The room that a trail is given: 2n - 2.
    // Rules out: 2n - 3, hops in the place of nodes; n.
    pub fn trail_room(self) -> usize
        ensures { result ≡ trail_room self }
    {
        let twice = 2 * (self.n as usize);
        if twice < 2 {
            return 0;
        }
        twice - 2
    }

    // The most hops of a run: 2n - 3.
    // Rules out: 2n - 4, one hop fewer than the longest run; 2n - 2, nodes in the place of hops.
    pub fn most_hops(self) -> u8
        requires { (3 ≤ self.n) × (self.n ≤ 32) }
        ensures { result ≡ most_hops self }
    {
        2 * self.n - 3
    }

    // How many detections a report has: the ordered pairs of different nodes.
    // Rules out: n × (n - 2) `fewer_detections`; n × n, a node counted with itself.
    pub fn detections(self) -> usize
        requires { (3 ≤ self.n) × (self.n ≤ 32) }
        ensures { result ≡ self.n * (self.n - 1) }
    {
        let n = self.n as usize;
        times(n, n - 1)
    }

    // The room that every report on so many nodes fits.
    // Rules out: 23 bytes a line, without the minus sign; n × n lines.
    pub fn report_room(self) -> usize
        requires { (3 ≤ self.n) × (self.n ≤ 32) }
        ensures { result ≡ report_room self }
    {
        let lines = times(self.detections(), Network::REPORT_LINE);
        Network::REPORT_HEADER + lines + Network::REPORT_LAST
    }

    // The weight of a restricted link: 2 × m × wmax.
    // Rules out: m × wmax, each link counted once `restricted_weight_counts_a_link_once`; wmax + 1.
    pub fn restricted_weight(self) -> u32
        requires { self.m ≤ 128 }
        ensures { result ≡ restricted_weight self }
    {
        2 * (self.m as u32) * (self.wmax as u32)
    }
}

// x × y, where both are small.
fn times(x: usize, y: usize) -> usize
    requires { (x < 1048576) × (y < 1048576) }
    ensures { (result ≡ x * y) × (result < 1099511627776) }
{
    x * y
}

// The rule that refuses: 01's refusal numbers, in their order.
#[derive(Clone, Copy, PartialEq, Eq)]
pub enum Rule {
    // Under 8 bytes, or a length that the counts do not give; a list too short for what is to be written.
    Length = 1,
    // A mark.
    Mark = 2,
    // n, m, k or wmax outside its range.
    Counts = 3,
    // A link's ends, or the order of links.
    Ends = 4,
    // A weight against its rule.
    Weight = 5,
    // A home's node or topology, or a row's topology.
    Home = 6,
    // A backbone that is empty or not connected.
    Backbone = 7,
    // An isolated node with fewer than two restricted links.
    TwoLinks = 8,
    // Some one node without which the others are not connected.
    CutNode = 9,
    // First fit needs more than the cap.
    Cap = 10,
    // A node, destination, topology, failure or cap outside its range.
    Range = 11,
    // The source, or the packet's present node, is the failed node.
    Source = 12,
    // A graph alone where a set is needed, or a set given to the builder.
    SetOrGraph = 13,
    // Lent room that is too short.
    Room = 14,
    // A table entry that the step looks up is no neighbour.
    Lookup = 15,
}

impl Rule {
    // The number of 01.
    // Rules out: numbers counted from 0 `rules_numbered_from_0`; the order's place of a rule, in which 13 comes before 7.
    pub fn number(self) -> u8
        ensures { result ≡ number_of self }
    {
        self as u8
    }

    // The refusal by this rule at a place.
    // Rules out: place 0, whatever the place is `every_place_0`; another rule.
    pub fn at(self, place: usize) -> Refusal
        ensures { result ≡ record { rule = self; place = place } }
    {
        Refusal { rule: self, place }
    }
}

// What is needed holds, or this rule refuses.
// Rules out: a refusal where it holds `refused_where_it_holds`; nothing refused where it does not.
#[tactic(auto, unfolding(crate::specs::Basics::need))]
pub fn need(holds: bool, rule: Rule) -> Result<(), Rule>
    ensures { broken result ≡ need holds (number_of rule) 0 }
{
    if holds { Ok(()) } else { Err(rule) }
}

// A refusal: the rule and the place, as 01's table says them.
#[derive(Clone, Copy, PartialEq, Eq)]
pub struct Refusal {
    pub rule: Rule,
    pub place: usize,
}

// The place of a rule that judges no record and no topology.
impl From<Rule> for Refusal {
    ghost from_gives = { λ rule refusal. refusal ≡ record { rule = rule; place = 0 } };

    fn from(rule: Rule) -> Refusal {
        rule.at(0)
    }
}

// What a record or a topology that stands at this place breaks.
// Rules out: accepted, although a rule is broken `a_broken_rule_accepted`; the place of the record before.
#[tactic(auto, using(crate::proofs::Ground::Ruling::placing))]
pub fn at(place: usize, judged: Result<(), Rule>) -> Verdict
    ensures { says result ≡ refuse (broken judged) place }
{
    match judged {
        Ok(()) => Ok(()),
        Err(rule) => Err(rule.at(place)),
    }
}

// As it is printed.
impl fmt::Display for Refusal {
    fn fmt<W: fmt::Write>(&self, f: &mut fmt::Formatter<W>) -> fmt::Result {
        write!(f, "refused {} at {}", self.rule.number(), self.place)
    }
}

// What the judge and taking in say: accepted, or refused. An entry answers with what it gives, or with the refusal.
pub type Verdict = Result<(), Refusal>;

// What is down: nothing, one link by its number in the file, or one node with all its links.
#[derive(Clone, Copy, PartialEq, Eq)]
pub enum Failure {
    Nothing,
    Link(u16),
    Node(u8),
}

// A packet: where it is, where it goes, and the topology it is in.
#[derive(Clone, Copy, PartialEq, Eq)]
pub struct Packet {
    pub place: u8,
    pub destination: u8,
    pub topology: u8,
}

// The kind of a change of topology, by 01's letters, or no change.
#[derive(Clone, Copy, PartialEq, Eq)]
pub enum Kind {
    Unchanged,
    T,
    S,
    D,
}

// What one step makes of a packet: it was at its destination; it moved, with or without a change of topology; it was dropped.
#[derive(Clone, Copy, PartialEq, Eq)]
pub enum Step {
    Delivered(Packet),
    Moved(Packet, Kind),
    Dropped(Packet),
}

// How a packet stands.
#[derive(Clone, Copy, PartialEq, Eq)]
pub enum Outcome {
    UnderWay,
    Delivered,
    Dropped,
}

// As it is printed.
impl fmt::Display for Outcome {
    fn fmt<W: fmt::Write>(&self, f: &mut fmt::Formatter<W>) -> fmt::Result {
        f.write_str(match self {
            Outcome::UnderWay => "under way",
            Outcome::Delivered => "delivered",
            Outcome::Dropped => "dropped",
        })
    }
}

// A run to its end: how it ended, its hops, its last topology and the kind of its one change.
#[derive(Clone, Copy, PartialEq, Eq)]
pub struct Journey {
    pub outcome: Outcome,
    pub hops: u8,
    pub topology: u8,
    pub kind: Kind,
}
