// What a detecting node sees: its next hop in topology 0, what it does where the link to it is down, and the hops from there on.
// `detect` promises all that the report's line on a node and a destination holds, of an accepted file by its own tables. The rules
// count the hops of a run with that one link down; here the next hops of one topology are counted, which no failure has to be asked
// about: proofs/Walks shows that a run with nothing down, and one that has changed its topology, goes just there.
#![tactic(auto)]

ghost use Rattle.std.specs.Prelude.{◌≡◌};
ghost use Rattle.rules.specs.Verdict.{Accepted};
ghost use Rattle.rules.specs.Basics.{laid};
ghost use Rattle.rules.specs.File.{set_of};
ghost use Rattle.rules.specs.Distance.{table_bytes};
ghost use Rattle.rules.specs.Judgement.{take_set};
ghost use Rattle.detections.specs.Detection.{Pair, Walked, seen_by};

use onehop::{Routed, entry};
use rules::Kind;

// The fields of a line after its node and destination; `plain` are the hops in topology 0.
#[derive(Clone, Copy)]
pub struct Seen {
    pub via: u8,
    pub kind: Kind,
    pub topology: u8,
    pub next: u8,
    pub hops: u8,
    pub plain: u8,
}

// The network of an accepted set's file, with its own tables.
#[derive(Clone, Copy)]
pub struct OwnTables<'a> {
    pub routed: Routed<'a>,
    ghost accepted: { take_set routed.file.bytes.now ≡ Accepted },
    ghost own: { laid (table_bytes (set_of routed.file.bytes.now)) routed.tables.now ≡ routed.tables.now },
}

impl OwnTables<'_> {
    // How many next hops of topology i lead from a node to t, of at most so many.
    fn walk(&self, i: u8, from: u8, t: u8, most: u8) -> u8
        ensures { Walked self.now.routed.tables.now self.now.routed.file.net i from t most result }
    {
        let mut u = from;
        for hops in 0..most {
            if u == t {
                return hops;
            }
            u = entry(
                self.routed.tables,
                self.routed.file.net,
                usize::from(i),
                u,
                t,
            );
        }
        most
    }

    // What node u sees of a packet for t where the link to its next hop is down: the link's number is not looked for, as the node only
    // sees that it cannot reach its next hop.
    // Rules out: the hops in topology 0 counted in the one changed to `plain_hops_in_the_backup_topology`; hops counted with nothing
    // down `hops_with_nothing_down`.
    pub fn detect(&self, u: u8, t: u8) -> Seen
        requires pair { Pair self.now.routed.file.net u t }
        requires fact { u ≡ t → ⊥ }
        ensures { result ≡ seen_by (set_of self.now.routed.file.bytes.now) u t }
    {
        let net = self.routed.file.net;
        let via = entry(self.routed.tables, net, 0, u, t);
        let d = self.routed.detour(u, t, via);
        let most = net.most_hops();
        let hops = self.walk(d.topology, d.next, t, most - 1) + 1;
        let plain = self.walk(0, u, t, most);
        Seen {
            via,
            kind: d.kind,
            topology: d.topology,
            next: d.next,
            hops,
            plain,
        }
    }
}
