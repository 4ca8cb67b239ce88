//! The program `hbase`: a script of shell commands on standard input, run over a store in memory, with
//! the replies on standard output.
#![tactic(auto)]

use hb_causes::RealClock;
use hbase_shell::{Outcome, hbase_main};
use ns_tree::MemNs;

fn main(rt: HostRuntime) -> Outcome<MemNs, MemNs, RealClock<HostRuntime>> {
    hbase_main(rt)
}
