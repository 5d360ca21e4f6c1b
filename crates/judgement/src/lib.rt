// The judgement of a house file: `judge` promises the verdict of 01 on any bytes, refusals 1 to 6 in 01's order, each with its place,
// or acceptance. Each record is judged in turn by its rule (`recordrules`), over the fields that stand at its place (`layout`).
#![tactic(auto)]

ghost use Rattle.std.specs.Prelude.{◌≡◌, ◌≤◌, ◌<◌, length};
ghost use Rattle.rules.specs.Basics.{need, all};
ghost use Rattle.rules.specs.Limits.{link_place, home_place, row_place, file_length};
ghost use Rattle.rules.specs.File.{header_of, home_topology};
ghost use Rattle.rules.specs.Judgement.{in_turn, header_number, link_number, home_number, row_weight_fits, row_number, records, judge};
ghost use Rattle.rules.specs.Verdict.{broken, says};
ghost use Rattle.judgement.specs.Turns.{judged};

use layout::{
    end_a, end_b, header, home_place, home_topology, link_fields, link_place, row_place, row_weight,
};
use rules::{Network, Rule, Verdict, at};
use slices::entry;

// A file, and the counts that its header gives.
#[derive(Clone, Copy)]
struct Counted<'a> {
    bytes: &'a [u8],
    net: Network,
    ghost header: { net ≡ header_of bytes.now },
}

impl Counted<'_> {
    // ---- the header

    // The header's rule.
    #[tactic(auto, using(crate::proofs::InTurn::heading))]
    fn header_rule(&self) -> Result<(), Rule>
        ensures { broken result ≡ header_number self.now.bytes.now }
    {
        let long = self.bytes.len();
        recordrules::header(long, entry(self.bytes, 0), entry(self.bytes, 1))?;
        recordrules::counts(self.net)?;
        recordrules::length(long, self.net.file_length())
    }

    // ---- links

    // The link records in turn.
    #[tactic(auto, using(crate::proofs::InTurn::link_turns))]
    fn links(&self) -> Verdict
        requires { link_place self.now.net.m ≤ length self.now.bytes.now }
        ensures { says result ≡ in_turn (judged (link_number self.now.bytes.now self.now.net) link_place) self.now.net.m }
    {
        let m = self.net.m as usize;
        let mut last = 0;
        for l in 0..m {
            let place = link_place(l);
            let link = link_fields(self.bytes, l);
            let rank = recordrules::rank(link.a, link.b);
            let judged = recordrules::link(
                self.net,
                link.x,
                link.y,
                last,
                rank,
                link.a,
                link.b,
                link.weight,
            );
            at(place, judged)?;
            last = rank;
        }
        Ok(())
    }

    // ---- homes

    // The first home records in turn.
    #[tactic(auto, using(crate::proofs::InTurn::home_turns, rules::proofs::Ground::Choices::turn_none))]
    fn homes(&self, count: usize) -> Verdict
        requires { count < 256 }
        ensures { says result ≡ in_turn (judged (home_number self.now.bytes.now self.now.net) (home_place self.now.net)) count }
    {
        for v in 0..count {
            let place = home_place(self.net, v);
            let judged = recordrules::home(
                self.net,
                v,
                entry(self.bytes, place),
                entry(self.bytes, place + 1),
                entry(self.bytes, place + 2),
                home_topology(self.bytes, self.net, v),
            );
            at(place, judged)?;
        }
        Ok(())
    }

    // ---- rows

    // The home of one end of a link.
    fn home_at(&self, end: u8) -> u8
        ensures { result ≡ home_topology self.now.bytes.now self.now.net end }
    {
        home_topology(self.bytes, self.net, usize::from(end))
    }

    // The weights of the row of topology j + 1: each fits its link's class.
    #[tactic(auto, using(crate::proofs::InTurn::fitting))]
    fn weights(&self, j: usize) -> Result<(), Rule>
        requires { j < 256 }
        ensures { broken result ≡ need (all (row_weight_fits self.now.bytes.now self.now.net j) self.now.net.m) 5 0 }
    {
        let m = self.net.m as usize;
        for l in 0..m {
            let home_a = self.home_at(end_a(self.bytes, l));
            let home_b = self.home_at(end_b(self.bytes, l));
            let weight = row_weight(self.bytes, self.net, j, l);
            recordrules::weight(self.net.wmax, j + 1, home_a, home_b, weight)?;
        }
        Ok(())
    }

    // The rule of the row of topology j + 1: its start before its weights.
    #[tactic(auto, using(crate::proofs::InTurn::row_starts))]
    fn row(&self, j: usize, place: usize) -> Result<(), Rule>
        requires { (j < 256) × ((place ≡ row_place self.now.net j) × (place < 536870912)) }
        ensures { broken result ≡ row_number self.now.bytes.now self.now.net j }
    {
        recordrules::row(
            j + 1,
            entry(self.bytes, place),
            entry(self.bytes, place + 1),
            entry(self.bytes, place + 2),
        )?;
        self.weights(j)
    }

    // The rows in turn.
    #[tactic(auto, using(crate::proofs::InTurn::row_turns, rules::proofs::Ground::Choices::turn_none))]
    fn rows(&self) -> Verdict
        ensures { says result ≡ in_turn (judged (row_number self.now.bytes.now self.now.net) (row_place self.now.net)) self.now.net.k }
    {
        let k = self.net.k as usize;
        for j in 0..k {
            let place = row_place(self.net, j);
            at(place, self.row(j, place))?;
        }
        Ok(())
    }

    // ---- the judgement

    // Each record after the header in turn, in a file of the length that its header says.
    #[tactic(auto, using(crate::proofs::InTurn::judging))]
    fn records(&self) -> Verdict
        requires { length self.now.bytes.now ≡ file_length self.now.net }
        ensures { says result ≡ records self.now.bytes.now self.now.net }
    {
        self.links()?;
        self.homes(self.net.home_records())?;
        self.rows()
    }
}

// Whether these bytes keep the rules of a file, and if not, the first rule of 01's order that they break and where.
// Rules out: the place of the first home for a fault in a later one `place_of_first`; 5 for a row whose topology is wrong too,
// which is 6 `weight_before_topology`; also `every_home_judged_by_the_first`, `place_of_an_earlier_record`.
#[tactic(auto, using(crate::proofs::InTurn::judging))]
pub fn judge(file: &[u8]) -> Verdict
    ensures { says result ≡ judge file.now }
{
    let counted = Counted {
        bytes: file,
        net: header(file),
    };
    counted.header_rule()?;
    counted.records()
}
