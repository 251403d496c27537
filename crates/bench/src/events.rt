// What the steps of a script ask of the board.
ghost use Rattle.std.specs.Prelude.{◌≡◌};
ghost use Rattle.bench.specs.Steps.{event_of, put_of, copy_after};

use board::board::Board;
use board::types::Line;
use controller::event::Event;
use script::types::Step;

// The event that puts the copy at an address, if there is a copy.
fn put_of(copy: Option<Line>, at: u64) -> Option<Event>
    ensures { result ≡ put_of copy at }
{
    copy.map(|line| Event::Tamper(at as usize, line))
}

// What a step asks of the board, if anything.
pub(crate) fn event_of(step: &Step, copy: Option<Line>) -> Option<Event>
    ensures { result ≡ event_of copy step.now }
{
    match step {
        Step::Read(at) => Some(Event::Read(*at as usize)),
        Step::Write(at, word) => {
            let body = [*word, 0, 0, 0, 0, 0, 0, 0];
            Some(Event::Write(*at as usize, body))
        }
        Step::Flush => Some(Event::Flush),
        Step::Restart => Some(Event::Restart),
        Step::Recharge(left) => Some(Event::Recharge(*left)),
        Step::Copy(_) => None,
        Step::Put(at) => put_of(copy, *at),
    }
}

// The copy that is kept after a step.
pub(crate) fn copy_after<B: Board>(board: &B, step: &Step, copy: Option<Line>) -> Option<Line>
    ensures { result ≡ copy_after (B.Board.meaning board.now) copy step.now }
{
    let Step::Copy(at) = step else {
        return copy;
    };
    board.read_line(*at as usize).ok().or(copy)
}
