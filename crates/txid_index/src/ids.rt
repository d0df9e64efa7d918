ghost use Rattle.std.specs.Prelude.{◌≡◌, ◌<◌, ◌≤◌, ◌^◌, [], length, OnOk, OnErr, IfOk};
ghost use Rattle.std.specs.FinMap.{get, empty};
ghost use Rattle.std.specs.HashMap.{spare};
ghost use Rattle.rules.specs.Delta.{uses_in};
ghost use Rattle.rules.specs.FirstUses.{FirstUses, with_uses};
ghost use Rattle.txid_index.specs.Found.{IsIndex};
ghost use Rattle.txid_index.specs.Lists.{AreThere, IsListAt};
ghost use Rattle.txid_index.specs.Marks.{marks};

use crate::found::{add_one, first_use_of, make_room};
use crate::id_key::IdKey;
use crate::lists::{SharedUses, UsePlace};
use crate::marks::marked;
use rules::{FirstUse, NewUse};
use std::alloc::{AllocError, Global};
use std::collections::HashMap;
use std::marker::Model;
use transaction::TxId;
use values::{Items, Shared};

// lists, and places in one, are counted by 32 bits
const MOST: usize = u32::MAX as usize;

/// Where ids were used first. A contract sees the map, and the room for a list of more uses.
#[derive(Drop)]
pub struct TxIds {
    lists: Vec<SharedUses>,
    // for each hash of an id where the first use stands of the first id that has it
    firsts: HashMap<u32, UsePlace>,
    // the first uses of all other ids, of which there are hardly any
    others: HashMap<IdKey, FirstUse>,
    // how many uses more are sure to fit, in one list
    room: usize,
}

impl Model for TxIds {
    ghost use Rattle.std.specs.Prelude.{◌<◌, ◌≤◌, ◌^◌, vec_len, vec_capacity};
    ghost use Rattle.std.specs.HashMap.{spare};
    ghost use Rattle.txid_index.specs.Ids.{Ids, ids_code};

    ghost Value = { Ids };

    ghost coded = { ids_code };

    ghost use Rattle.txid_index.specs.Found.{IsIndex};
    ghost use Rattle.txid_index.specs.Lists.{uses_of, AreThere};

    ghost view = { λ t. record { uses = uses_of t.lists.items; room = t.room } };

    ghost invariant = { λ t. IsIndex t.lists.items t.firsts.entries t.others.entries (uses_of t.lists.items)
        × AreThere t.lists.items t.firsts.entries
        × (t.room ≤ spare t.firsts) × (t.room ≤ spare t.others) × (t.room < 2 ^ 32)
        × (0 < t.room → vec_len t.lists < vec_capacity t.lists) × (0 < t.room → vec_len t.lists < 2 ^ 32) };
}

/// Finds the uses of the list of this number from now on. Takes no memory.
fn add_all(
    lists: &[SharedUses],
    firsts: &mut HashMap<u32, UsePlace>,
    others: &mut HashMap<IdKey, FirstUse>,
    list: u32,
    uses: &[NewUse],
)
    requires there { AreThere lists.now firsts.old.entries }
    requires list { IsListAt lists.now list uses.now }
    requires few { length uses.now < 2 ^ 32 }
    requires firsts { length uses.now ≤ spare firsts.old }
    requires others { length uses.now ≤ spare others.old }
    ensures index { (before : FirstUses) → IsIndex lists.now firsts.old.entries others.old.entries before
        → IsIndex lists.now firsts.new.entries others.new.entries (with_uses before (uses_in uses.now)) }
    ensures there { AreThere lists.now firsts.new.entries }
{
    for (index, used) in uses.iter().enumerate() {
        let place = UsePlace {
            list,
            index: index as u32,
        };
        add_one(lists, firsts, others, place, used);
    }
}

impl TxIds {
    /// No ids, and no room. Takes no memory.
    pub fn new(alloc: Global) -> TxIds
        ensures uses { result.uses ≡ empty }
        ensures room { result.room ≡ 0 }
    {
        TxIds {
            lists: Vec::new(alloc),
            firsts: HashMap::new(alloc),
            others: HashMap::new(alloc),
            room: 0,
        }
    }

    /// Where the id was used first. Constant time.
    pub fn first_use(&self, id: &TxId) -> Option<FirstUse>
        ensures { result ≡ get self.now.uses id.now }
    {
        first_use_of(self.lists.as_slice(), &self.firsts, &self.others, id)
    }

    /// How many uses can be added in one list before the next `reserve`.
    pub fn room(&self) -> usize
        ensures { result ≡ self.now.room }
    {
        self.room
    }

    /// Makes room for a list of so many uses; refused for 2^32 or more, and where there are 2^32 lists. An `Err` changes nothing. Linear in
    /// the ids where the map grows, which it does seldom enough that all calls together are linear in the room that they ask for.
    pub fn reserve(&mut self, additional: usize) -> Result<(), AllocError>
        ensures ok { OnOk result (additional ≤ self.new.room) }
        ensures room { self.old.room ≤ self.new.room }
        ensures uses { self.new.uses ≡ self.old.uses }
        ensures err { OnErr result (self.new ≡ self.old) }
    {
        if additional > MOST || self.lists.len() > MOST {
            return Err(AllocError);
        }
        make_room(
            &mut self.lists,
            &mut self.firsts,
            &mut self.others,
            additional,
        )?;
        self.room = self.room.max(additional);
        Ok(())
    }

    /// Counts uses of ids one after the other, each of which changes nothing where its id was used before. What room is left may be given up.
    /// Linear in them, no memory.
    pub fn add(&mut self, uses: Shared<Items<NewUse>>)
        requires { length uses ≤ self.old.room }
        ensures { self.new.uses ≡ with_uses self.old.uses (uses_in uses) }
    {
        if uses.get().is_empty() {
            return;
        }
        let list = self.lists.len();
        self.lists.push_reserved(uses);
        add_all(
            self.lists.as_slice(),
            &mut self.firsts,
            &mut self.others,
            list as u32,
            self.lists[list].get().as_slice(),
        );
        self.room = 0;
    }

    /// For each place of a block whether its id was used before: here, or at an earlier place. One pass, constant time
    /// and memory for a place.
    pub fn mark(&self, alloc: Global, ids: &[Option<TxId>]) -> Result<Vec<bool>, AllocError>
        ensures { IfOk result (λ used. used.items ≡ marks self.now.uses [] ids.now) }
    {
        marked(self, alloc, ids)
    }
}
