//! Whether the names of new regions are taken.

ghost use Rattle.std.specs.Prelude.{◌≡◌, ◌↔◌, true, IfOk};
ghost use Rattle.std.specs.FinMap.{get};
ghost use Rattle.cell_sight.specs.Member.{Member};
ghost use Rattle.core_model.specs.StartGuards.{IsTaken};
ghost use Rattle.plain_model.specs.Found.{is_table};
ghost use Rattle.world_steps.specs.Starts.{AreOf, HasTaken, IsKeyTaken, Repeats, keys_in};
ghost use Rattle.world_steps.specs.World.{state_at};

use crate::regions::{keys_listed, keys_of};
use crate::world::World;
use hb_causes::Clock;
use hb_names::TableName;
use hb_records::RegionInfo;
use hb_wire::{Items, NoMemory};
use ns_tree::Namespace;
use plain_model::RegionKey;

/// Whether a key is one of some.
fn has_key(keys: &[RegionKey], key: &RegionKey) -> bool
    ensures { (result ≡ true) ↔ Member key.now keys.now }
{
    keys.contains(key)
}

/// Whether a key stands twice.
fn has_repeated(keys: &[RegionKey]) -> bool
    ensures { (result ≡ true) ↔ Repeats keys.now }
{
    for i in 0..keys.len() {
        if has_key(&keys[i + 1..], &keys[i]) {
            return true;
        }
    }
    false
}

impl<N: Namespace, C: Clock> World<N, C> {
    /// Whether a table exists.
    pub(crate) fn has_table(&self, table: &TableName) -> bool
        ensures { result ≡ is_table (state_at self.now).now.plain table.now }
    {
        self.holds();
        match self.core().set(table) {
            Some(set) => !set.state.is_dropped(),
            None => false,
        }
    }

    /// The keys of a table's regions, split ones too: none where it doesn't exist.
    fn listed_keys(&self, table: &TableName) -> Result<Items<RegionKey>, NoMemory>
        ensures { IfOk result (λ keys. keys ≡ keys_in (get (state_at self.now).now.plain.tables table.now)) }
    {
        self.holds();
        let Some(set) = self.core().set(table) else {
            return Ok(Items::new(self.alloc));
        };
        if set.state.is_dropped() {
            return Ok(Items::new(self.alloc));
        }
        keys_listed(self.alloc, set.regions.as_slice())
    }

    /// Whether a key is taken. `listed`: the keys of its table's regions.
    fn is_key_taken(&self, listed: &[RegionKey], key: &RegionKey) -> Result<bool, NoMemory>
        ensures { IfOk result (λ taken. (taken ≡ true) ↔ IsKeyTaken listed.now (state_at self.now).now key.now) }
    {
        if self.core().is_drawn(key) || has_key(listed, key) {
            return Ok(true);
        }
        self.core().stands_below(key)
    }

    /// Whether one of some keys is taken. `listed`: the keys of their table's regions.
    fn has_taken(&self, listed: &[RegionKey], keys: &[RegionKey]) -> Result<bool, NoMemory>
        ensures { IfOk result (λ taken. (taken ≡ true) ↔ HasTaken listed.now (state_at self.now).now keys.now) }
    {
        for key in keys {
            if self.is_key_taken(listed, key)? {
                return Ok(true);
            }
        }
        Ok(false)
    }

    /// Whether an encoded name of new regions of a table is taken.
    pub(crate) fn is_name_taken(
        &self,
        table: &TableName,
        regions: &[RegionInfo],
    ) -> Result<bool, NoMemory>
        requires { AreOf table.now regions.now }
        ensures { IfOk result (λ taken. (taken ≡ true) ↔ IsTaken (state_at self.now).now.disk (state_at self.now).now.drawn (state_at self.now).now.plain regions.now) }
    {
        let keys = keys_of(self.alloc, regions)?;
        let keys = keys.as_slice();
        if has_repeated(keys) {
            return Ok(true);
        }
        let listed = self.listed_keys(table)?;
        self.has_taken(listed.as_slice(), keys)
    }
}
