// The controller as C functions, for the benchmark driver: calls on a board under suite 1, and the cipher calls that they need.
#![tactic(auto)]

ghost use Rattle.std.specs.Prelude.{◌≤◌};

use board::board::Board;
use board::memory::Memory;
use controller::cold::Cold;
use controller::open::Open;
use suite::nonce::Nonce;
use suite::sealing::seal_data;
use suite::sip_suite::SipSuite;
use suite::suite::Suite;

// The suite that is timed.
fn keyed() -> SipSuite {
    SipSuite::new(&[1; 16], &[2; 16])
}

// A board of so many levels, formatted and brought up.
fn opened<B: Board, S: Suite + Copy>(board: B, suite: S, levels: u64, slots: u64) -> Open<B, S> {
    let mut cold = Cold::new(board);
    let _ = cold.format(&suite, levels);
    let (open, _) = cold.bring_up(suite, slots);
    open
}

// The address of a turn: every eighth below `span`, over and over.
fn address(turn: u64, span: u64) -> usize {
    (turn.wrapping_mul(8) % span.max(1)) as usize
}

// Makes so many leaves dirty, by a write at every eighth address.
fn make_dirty<B: Board, S: Suite>(open: &mut Open<B, S>, leaves: u64) {
    for i in 0..leaves {
        let _ = open.write(i.wrapping_mul(8) as usize, &[i; 8]);
    }
}

// How many of so many turns were done.
fn count<F: FnMut(u64) -> bool>(turns: u64, mut is_done: F) -> u64
    requires { (state : F) (turn : _) → F.pre state turn }
    ensures { result ≤ turns }
{
    (0..turns).filter(|turn| is_done(*turn)).count() as u64
}

// Writes in turn at every eighth address below `span`, and counts those that were done. The board is handed back, here
// and in `reads` and `bring_ups`, since not every board can be dropped.
fn writes<B: Board, S: Suite + Copy>(mut open: Open<B, S>, span: u64, turns: u64) -> (B, u64)
    ensures { result.1 ≤ turns }
{
    let done = count(turns, |turn| {
        open.write(address(turn, span), &[turn; 8]).outcome.is_ok()
    });
    (open.shut_down().into_board(), done)
}

// Reads in turn at every eighth address below `span`, and counts those that were accepted.
fn reads<B: Board, S: Suite + Copy>(open: Open<B, S>, span: u64, turns: u64) -> (B, u64)
    ensures { result.1 ≤ turns }
{
    let mut body = [0; 8];
    let done = count(turns, |turn| {
        open.read(address(turn, span), &mut body).is_ok()
    });
    (open.shut_down().into_board(), done)
}

// Shuts the board down and brings it up in each turn, and counts the bring-ups that were accepted.
fn bring_ups<B: Board, S: Suite + Copy>(open: Open<B, S>, suite: S, turns: u64) -> (B, u64)
    ensures { result.1 ≤ turns }
{
    let mut current = open;
    let mut done = 0;
    // A `fold` is no plainer: each turn moves the board, so board and count would go through its closure as a pair.
    for _ in 0..turns {
        let (next, outcome) = current.shut_down().bring_up(suite, 64);
        done += u64::from(outcome.is_ok());
        current = next;
    }
    (current.shut_down().into_board(), done)
}

// How many of so many writes were done.
#[unsafe(no_mangle)]
pub extern "C" fn boardbench_writes(words: &mut [u64], slots: u64, span: u64, turns: u64) -> u64
    ensures { result ≤ turns }
{
    let open = opened(Memory::new(words), keyed(), 3, slots);
    let (_memory, done) = writes(open, span, turns);
    done
}

// How many of so many reads were accepted, each leaf dirty.
#[unsafe(no_mangle)]
pub extern "C" fn boardbench_reads(words: &mut [u64], slots: u64, span: u64, turns: u64) -> u64
    ensures { result ≤ turns }
{
    let mut open = opened(Memory::new(words), keyed(), 3, slots);
    make_dirty(&mut open, slots);
    let (_memory, done) = reads(open, span, turns);
    done
}

// How many of so many bring-ups were accepted, with so many leaves dirty.
#[unsafe(no_mangle)]
pub extern "C" fn boardbench_bring_ups(
    words: &mut [u64],
    levels: u64,
    dirty: u64,
    turns: u64,
) -> u64
    ensures { result ≤ turns }
{
    let suite = keyed();
    let mut open = opened(Memory::new(words), suite, levels, 64);
    make_dirty(&mut open, dirty);
    let (_memory, done) = bring_ups(open, suite, turns);
    done
}

// How many of so many data lines were sealed with a tag other than 0.
#[unsafe(no_mangle)]
pub extern "C" fn boardbench_seals(turns: u64) -> u64
    ensures { result ≤ turns }
{
    let suite = keyed();
    count(turns, |turn| {
        let nonce = Nonce {
            at: turn,
            counter: turn,
        };
        seal_data(&suite, nonce, &[turn; 8]).tag != 0
    })
}
