ghost use Rattle.std.specs.Prelude.{◌≡◌, MatchOption, nat_le, take};
ghost use Rattle.std.proofs.Math.Option.{some, none};
ghost use Rattle.machine.specs.Plans.{is_dirty, overdue as overdue_in, dirty_count, sum_of};
ghost use Rattle.machine.specs.Layouts.{shape_in};
ghost use Rattle.tree.specs.Tables.{slot_in};
ghost use Rattle.tree.specs.SlotTable.{table_in, no_slots, map_in, Finds, Counter, LowestIs};

use crate::counters::sum_of;
use crate::dirty_map::set_bit;
use crate::types::{Layout, MOST_PENDING, Slot, Slots};

impl Slots {
    // No dirty nodes.
    pub fn new(layout: Layout) -> Slots
        ensures table { table_in result ≡ no_slots }
        ensures empty { result.used ≡ 0 }
        ensures layout { result.layout ≡ layout }
    {
        let blank = Slot {
            address: 0,
            counters: [0; 8],
            pending: 0,
        };
        Slots {
            table: [blank; 64],
            used: 0,
            layout,
        }
    }

    pub fn layout(&self) -> Layout
        ensures { result ≡ self.now.layout }
    {
        self.layout
    }

    // Whether every slot is used.
    pub(crate) fn is_full(&self) -> bool
        ensures { result ≡ nat_le 64 self.now.used }
    {
        64 <= self.used
    }

    // How many nodes are dirty.
    pub fn used(&self) -> usize
        ensures value { result ≡ self.now.used }
        ensures counted { result ≡ dirty_count (shape_in self.now.layout) (table_in self.now) }
    {
        self.used
    }

    // The slots in use.
    fn slots_in_use(&self) -> &[Slot]
        ensures { result.now ≡ take self.now.used self.now.table }
    {
        &self.table[..self.used]
    }

    // Where the slot of a node stands: the only search of the slots by address.
    pub(crate) fn find(&self, at: usize) -> Option<usize>
        ensures { Finds self.now at result }
    {
        self.slots_in_use()
            .iter()
            .position(|slot| slot.address == at)
    }

    // The slot of a node.
    fn slot(&self, at: usize) -> Option<&Slot>
        ensures { MatchOption result (table_in self.now at ≡ none) (λ slot. table_in self.now at ≡ some (slot_in slot.now)) }
    {
        Some(&self.table[self.find(at)?])
    }

    // Whether a node is dirty.
    pub fn holds(&self, at: usize) -> bool
        ensures { result ≡ is_dirty (table_in self.now at) }
    {
        self.slot(at).is_some()
    }

    // Whether a node is dirty with 1,023 pending increments or more.
    pub fn overdue(&self, at: usize) -> bool
        ensures { result ≡ overdue_in (table_in self.now at) }
    {
        self.slot(at)
            .is_some_and(|slot| slot.pending >= MOST_PENDING)
    }

    // One of the eight counters of a dirty node.
    pub fn counter(&self, at: usize, index: usize) -> Option<u64>
        ensures { Counter (table_in self.now at) index result }
    {
        // tested first, so that a wrong index costs no search
        if index >= 8 {
            return None;
        }
        self.slot(at)?.counters.get(index).copied()
    }

    // The dirty node of lowest address.
    pub fn lowest(&self) -> Option<usize>
        ensures { LowestIs (shape_in self.now.layout) (table_in self.now) result }
    {
        self.slots_in_use().iter().map(|slot| slot.address).min()
    }

    // The dirty sum: all counters of all dirty nodes.
    pub fn sum(&self) -> u64
        ensures { result ≡ sum_of (shape_in self.now.layout) (table_in self.now) }
    {
        self.slots_in_use()
            .iter()
            .map(|slot| sum_of(&slot.counters))
            .sum()
    }

    // The dirty map of these slots.
    pub fn dirty_map(&self) -> [u64; 10]
        ensures { map_in self.now.layout.levels result ≡ (λ p. is_dirty (table_in self.now p)) }
    {
        let base = self.layout.data_lines();
        let mut map = [0u64; 10];
        for slot in self.slots_in_use() {
            set_bit(&mut map, slot.address - base);
        }
        map
    }
}
