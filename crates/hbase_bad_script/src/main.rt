//! The program `hbase` once more, so that a second run of it is stored: on a script that it refuses.
#![tactic(auto)]

use hb_causes::RealClock;
use hbase_shell::{Outcome, hbase_main};
use ns_tree::MemNs;

fn main(rt: HostRuntime) -> Outcome<MemNs, MemNs, RealClock<HostRuntime>> {
    hbase_main(rt)
}
