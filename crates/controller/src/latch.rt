ghost use Rattle.std.specs.Prelude.{◌≡◌, ◌<◌};
ghost use Rattle.tree.specs.SlotTable.{table_in};
ghost use Rattle.controller.specs.Worlds.{latch_of};

use crate::types::{Fault, TreeFault};
use board::types::BoardFault;
use tree::types::{Layout, Slots};

// The fault that stays for every later call: only lost power does.
pub(crate) fn latch(r: &Result<(), TreeFault>) -> Option<Fault>
    ensures { result ≡ latch_of r.now }
{
    match *r {
        Err(TreeFault::Board(f)) => match f.fault {
            BoardFault::PowerLost => Some(Fault::Tree(TreeFault::Board(f))),
            BoardFault::Absent => None,
        },
        _ => None,
    }
}

// Slots of this layout: those there are, unless none is in use and they are of another.
pub(crate) fn fit_slots(slots: &mut Slots, layout: Layout)
    requires { 0 < slots.old.used → layout.levels ≡ slots.old.layout.levels }
    ensures table { table_in slots.new ≡ table_in slots.old }
    ensures levels { slots.new.layout.levels ≡ layout.levels }
{
    if slots.layout().levels() != layout.levels() {
        *slots = Slots::new(layout);
    }
}
