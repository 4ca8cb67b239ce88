ghost use Rattle.std.specs.Prelude.{◌≡◌, [], Some, IfSome};
ghost use Rattle.std.specs.FinMap.{empty};
ghost use Rattle.core_model.specs.StartGuards.{IsWithinLimits};
ghost use Rattle.core_sound.specs.Laws.{bare_opening};
ghost use Rattle.world_steps.specs.Starts.{IsServedJob};

use super::*;
use core_model::{Found, Opening, Started};
use hb_causes::ListClock;
use hb_ghost::{Ghost, Reads};
use hb_names::{FamilyName, TableName};
use hb_wire::Items;
use ns_tree::{MemNs, Namespace, Tree};
use plain_model::{Job, Reply, Who};
use std::alloc::Global;
use std::test::Fail;

struct Itself;

impl Reads<Found, Found> for Itself {
    ghost reads = { λ found. found };
}

struct ToldBy;

impl Reads<MemNs, Option<Tree>> for ToldBy {
    ghost reads = { λ ns. Some ns.tree };
}

fn nothing(alloc: Global) -> Found
    ensures { result ≡ record { places = []; cells = []; lists = []; sets = []; snapshots = [] } }
{
    Found {
        places: Items::new(alloc),
        cells: Items::new(alloc),
        lists: Items::new(alloc),
        sets: Items::new(alloc),
        snapshots: Items::new(alloc),
    }
}

/// The first opening of a store without files.
fn opening(found: &Found, ns: &MemNs) -> Opening
    requires files { ns.now.tree ≡ empty }
    requires found { found.now ≡ record { places = []; cells = []; lists = []; sets = []; snapshots = [] } }
    ensures { result ≡ bare_opening 1 300_000 }
{
    Opening {
        epoch: 1,
        ttl: 300_000,
        tree: Ghost::<Option<Tree>>::of::<MemNs, ToldBy>(ns),
        found: Ghost::<Found>::of::<Found, Itself>(found),
    }
}

/// The world of a store without files.
fn world(alloc: Global) -> Result<World<MemNs, ListClock>, Fail> {
    let ns = MemNs::new(Tree::new(alloc), Items::new(alloc), Items::new(alloc));
    let clock = ListClock::new(Vec::new(alloc));
    let found = nothing(alloc);
    let opening = opening(&found, &ns);
    match World::begin(alloc, ns, clock, opening, found) {
        Ok(world) => Ok(world),
        Err((_, _, error)) => Err(error.into()),
    }
}

// How many names it answers, or none where it is refused.
fn listed(world: &mut World<MemNs, ListClock>) -> Option<usize> {
    let who = Who { worker: 3, line: 1 };
    match world.list_snapshots(who) {
        Ok(Reply::Snapshots(names)) => Some(names.len()),
        _ => None,
    }
}

// The world is let go before anything may fail: a test would show the release of each of its parts there.
#[test]
fn names_are_listed(rt: HostRuntime) -> Result<(), Fail> {
    let mut world = world(rt.alloc())?;
    let first = listed(&mut world);
    let second = listed(&mut world);
    let entries = world.core().len();
    drop(world);
    assert_eq!(rt; (first, second), (Some(0), Some(0)));
    assert_eq!(rt; entries, 2);
    Ok(())
}

/// A Create of a table with the family `f` and another.
fn create(alloc: Global, table: &[u8], family: &[u8]) -> Option<Job>
    ensures served { IfSome result IsServedJob }
    ensures limits { IfSome result IsWithinLimits }
{
    let mut families = Vec::new(alloc);
    families.push(FamilyName::read(alloc, b"f").ok()?).ok()?;
    families.push(FamilyName::read(alloc, family).ok()?).ok()?;
    Some(Job::Create {
        table: TableName::read(alloc, table).ok()?,
        families: Items::from_vec(families),
        versions: 1,
        splits: Items::new(alloc),
    })
}

/// How a start comes out.
#[derive(Clone, Copy, Debug, PartialEq, Eq)]
enum Answer {
    Live(u32),
    Refused,
    Held(u32),
    Stopped,
}

fn started(world: &mut World<MemNs, ListClock>, job: &Job) -> Answer
    requires served { IsServedJob job.now }
    requires limits { IsWithinLimits job.now }
{
    let who = Who { worker: 3, line: 1 };
    match world.start(who, job) {
        Ok(Started::Live(actor)) => Answer::Live(actor.0),
        Ok(Started::Refused(_)) => Answer::Refused,
        Err(Refusal::Held { by, .. }) => Answer::Held(by.0),
        Err(_) => Answer::Stopped,
    }
}

fn outcome(
    alloc: Global,
    world: &mut World<MemNs, ListClock>,
    table: &[u8],
    family: &[u8],
) -> Answer {
    match create(alloc, table, family) {
        Some(job) => started(world, &job),
        None => Answer::Stopped,
    }
}

#[test]
fn tables_are_started(rt: HostRuntime) -> Result<(), Fail> {
    let mut world = world(rt.alloc())?;
    let live = outcome(rt.alloc(), &mut world, b"t", b"g");
    let held = outcome(rt.alloc(), &mut world, b"t", b"g");
    let refused = outcome(rt.alloc(), &mut world, b"u", b"f");
    let beside = outcome(rt.alloc(), &mut world, b"u", b"g");
    let entries = world.core().len();
    drop(world);
    assert_eq!(rt; (live, held), (Answer::Live(0), Answer::Held(0)));
    assert_eq!(rt; (refused, beside), (Answer::Refused, Answer::Live(1)));
    assert_eq!(rt; entries, 3);
    Ok(())
}
