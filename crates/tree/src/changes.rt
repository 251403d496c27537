ghost use Rattle.std.specs.Prelude.{◌≡◌, ◌+◌, ◌<◌, ◌↔◌, IsTrue};
ghost use Rattle.std.proofs.Math.Option.{some};
ghost use Rattle.suite.specs.Words.{row};
ghost use Rattle.machine.specs.Layout.{update};
ghost use Rattle.machine.specs.Plans.{raised};
ghost use Rattle.tree.specs.Tables.{slot_in};
ghost use Rattle.tree.specs.SlotTable.{table_in, HasRoom, FitToPush, Raised, Pushed, Removed};

use crate::counters::{LIMIT, within_limit};
use crate::types::{MOST_PENDING, Slot, Slots};

impl Slots {
    // A slot more, for a node that has none.
    fn append(&mut self, slot: Slot)
        requires { FitToPush self.old slot }
        ensures table { table_in self.new ≡ update (table_in self.old) slot.address (some (slot_in slot)) }
        ensures more { self.new.used ≡ self.old.used + 1 }
        ensures layout { self.new.layout ≡ self.old.layout }
    {
        self.table[self.used] = slot;
        self.used += 1;
    }

    // Whether a slot is free, and a node can have it with these counters.
    fn has_room(&self, node: usize, counters: &[u64; 8]) -> bool
        ensures { IsTrue result ↔ HasRoom self.now node (row counters.now) }
    {
        !self.is_full() && self.layout.is_node(node) && within_limit(counters)
    }

    // A slot more; false, and nothing changes, where it does not fit. A bool as of `HashSet::insert`: one refusal, and no more to say of it.
    pub fn push(&mut self, slot: Slot) -> bool
        ensures { Pushed self.old slot result self.new }
    {
        let fits = self.has_room(slot.address, &slot.counters) && !self.holds(slot.address);
        if fits {
            self.append(slot);
        }
        fits
    }

    // One counter of a node becomes `counter`: in its slot, or in a new one from the counters `fresh`.
    // False, and nothing changes, where that does not fit: a bool as of `push`.
    pub fn raise(&mut self, at: usize, index: usize, counter: u64, fresh: &[u64; 8]) -> bool
        ensures { Raised self.old at index counter (row fresh.now) result self.new }
    {
        if index >= 8 || counter > LIMIT {
            return false;
        }
        if let Some(i) = self.find(at) {
            if self.table[i].pending >= MOST_PENDING {
                return false;
            }
            raise_slot(&mut self.table[i], index, counter);
            return true;
        }
        if !self.has_room(at, fresh) {
            return false;
        }
        let mut slot = Slot {
            address: at,
            counters: *fresh,
            pending: 0,
        };
        raise_slot(&mut slot, index, counter);
        self.append(slot);
        true
    }

    // Takes the slot of a dirty node away, and gives its counters. The last slot in use takes its place.
    pub fn remove(&mut self, at: usize) -> Option<[u64; 8]>
        ensures { Removed self.old at result self.new }
    {
        let i = self.find(at)?;
        let counters = self.table[i].counters;
        self.used -= 1;
        self.table[i] = self.table[self.used];
        Some(counters)
    }
}

// One slot, lent to be raised in place: one of its counters becomes `counter`.
fn raise_slot(slot: &mut Slot, index: usize, counter: u64)
    requires { (index < 8) × (slot.old.pending < 1023) }
    ensures place { slot.new.address ≡ slot.old.address }
    ensures raised { slot_in slot.new ≡ raised (slot_in slot.old) index counter }
{
    slot.counters[index] = counter;
    slot.pending += 1;
}
