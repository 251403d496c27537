// Piles of boards on examples, and a generic client of the traits.
ghost use Rattle.std.specs.Prelude.{◌≡◌, true, slice_set};

use crate::board::Board;
use crate::fuse::*;
use crate::memory::*;
use crate::tamper::{Recharge, Tamper};
use crate::types::{BoardFault, Line};
use crate::window::*;
use std::test::Fail;

fn line(n: u64) -> Line {
    Line {
        body: [n; 8],
        tag: n,
    }
}

// Puts a line past power, then sets the power anew.
fn swap_and_charge<B: Tamper + Recharge>(
    b: &mut B,
    at: usize,
    with: Line,
    left: Option<u64>,
) -> bool
    ensures lines { result ≡ true → (B.Board.meaning b.new).lines ≡ slice_set (B.Board.meaning b.old).lines at with }
    ensures register { (B.Board.meaning b.new).register ≡ (B.Board.meaning b.old).register }
{
    let done = b.put(at, with);
    b.recharge(left);
    done
}

fn lines_of(words: &mut [u64]) -> usize {
    Memory::new(words).count()
}

#[test]
fn memory_has_whole_lines(rt: HostRuntime) {
    assert_eq!(rt; lines_of(&mut []), 0);
    assert_eq!(rt; lines_of(&mut [0; 8]), 0);
    assert_eq!(rt; lines_of(&mut [0; 9]), 1);
    assert_eq!(rt; lines_of(&mut [0; 17]), 1);
    assert_eq!(rt; lines_of(&mut [0; 18]), 2);
}

#[test]
fn memory_keeps_trailing_words(rt: HostRuntime) -> Result<(), Fail> {
    let mut words = [7; 20];
    let mut memory = Memory::new(&mut words);
    assert_eq!(rt; memory.write_line(1, line(5)), Ok(()));
    assert_eq!(rt; memory.write_line(2, line(6)), Err(BoardFault::Absent));
    assert!(rt; !memory.put(usize::MAX, line(6)));
    assert!(rt; memory.read_line(usize::MAX).is_err());
    assert_eq!(rt; memory.read_line(1)?.tag, 5);
    let kept = memory.words();
    assert!(rt; kept.len() == 20);
    assert!(rt; kept[8] == 7 && kept[9] == 5 && kept[17] == 5 && kept[18] == 7);
    Ok(())
}

#[test]
fn fuse_of_two(rt: HostRuntime) -> Result<(), Fail> {
    let mut words = [0; 18];
    let mut fuse = Fuse::new(Memory::new(&mut words), Some(2));
    assert_eq!(rt; fuse.write_line(2, line(1)), Err(BoardFault::Absent));
    assert_eq!(rt; fuse.write_line(0, line(1)), Ok(()));
    assert_eq!(rt; fuse.write_register([3; 32]), Ok(()));
    assert_eq!(rt; fuse.write_line(2, line(1)), Err(BoardFault::Absent));
    assert_eq!(rt; fuse.write_line(1, line(1)), Err(BoardFault::PowerLost));
    assert_eq!(rt; fuse.write_register([4; 32]), Err(BoardFault::PowerLost));
    assert_eq!(rt; fuse.read_register()[31], 3);
    assert!(rt; swap_and_charge(&mut fuse, 1, line(9), Some(1)));
    assert_eq!(rt; fuse.read_line(1)?.tag, 9);
    assert_eq!(rt; fuse.write_line(1, line(2)), Ok(()));
    assert_eq!(rt; fuse.write_line(1, line(3)), Err(BoardFault::PowerLost));
    assert_eq!(rt; fuse.into_inner().read_line(1)?.tag, 2);
    Ok(())
}

#[test]
fn piles_are_boards(rt: HostRuntime) -> Result<(), Fail> {
    let mut words = [0; 27];
    let mut pile = Fuse::new(Window::new(Memory::new(&mut words), 1, 5), Some(1));
    assert_eq!(rt; pile.count(), 2);
    assert_eq!(rt; pile.write_line(1, line(4)), Ok(()));
    assert!(rt; pile.put(0, line(3)));
    let memory = pile.into_inner().into_inner();
    assert_eq!(rt; memory.read_line(2)?.tag, 4);
    let mut pile = Window::new(Fuse::new(memory, Some(1)), 2, usize::MAX);
    assert_eq!(rt; pile.count(), 1);
    assert_eq!(rt; pile.write_line(1, line(5)), Err(BoardFault::Absent));
    assert_eq!(rt; pile.write_line(0, line(5)), Ok(()));
    assert_eq!(rt; pile.write_line(0, line(6)), Err(BoardFault::PowerLost));
    assert!(rt; swap_and_charge(&mut pile, 0, line(8), None));
    assert_eq!(rt; pile.below().count(), 3);
    let memory = pile.into_inner().into_inner();
    assert_eq!(rt; memory.read_line(1)?.tag, 3);
    assert_eq!(rt; memory.read_line(2)?.tag, 8);
    Ok(())
}

#[test]
fn window_past_the_end(rt: HostRuntime) {
    let mut words = [0; 18];
    let mut window = Window::new(Memory::new(&mut words), usize::MAX, usize::MAX);
    assert_eq!(rt; window.count(), 0);
    assert!(rt; window.read_line(0).is_err());
    assert_eq!(rt;
        window.write_line(usize::MAX, line(1)),
        Err(BoardFault::Absent)
    );
    assert_eq!(rt; window.write_register([1; 32]), Ok(()));
}
