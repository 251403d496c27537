// Scripts: many events in a row on one board that a program can also reach from outside.
ghost use Rattle.std.specs.Prelude.{◌≡◌, ℕ, min, length, take, drop};
ghost use Rattle.board.specs.Meaning.{endless};
ghost use Rattle.machine.specs.History.{bring_up as bringing_up};
ghost use Rattle.controller.specs.Worlds.{world_in, cold_in, read_in, report_in, Keeps};
ghost use Rattle.controller.specs.BringUps.{BringsUp};
ghost use Rattle.controller.specs.Scripts.{answer_in, PlaysOne, DoesOne, Plays, DoesAll};
ghost use Rattle.controller.specs.declared.event.Event.TheVariants.{Read as Reading, Write as Writing, Flush as Flushing, Restart, Recharge as Recharging, Tamper as Tampering};

use crate::cold::Cold;
use crate::event::{Event, Reply};
use crate::open::Open;
use crate::types::{Fault, Report};
use board::board::Board;
use board::tamper::{Recharge, Tamper};
use board::types::Line;
use suite::suite::Suite;

// What a call without a body answered, with the commits made.
impl From<Report> for Reply {
    ghost from_gives = { λ report reply. answer_in reply ≡ report_in report };

    fn from(report: Report) -> Reply {
        match report.outcome {
            Ok(()) => Reply::Done(report.commits),
            Err(fault) => Reply::Refused(fault, report.commits),
        }
    }
}

// What a read answered.
fn read_reply(outcome: Result<(), Fault>, body: &[u64; 8]) -> Reply
    ensures { answer_in result ≡ read_in outcome body.now }
{
    match outcome {
        Ok(()) => Reply::Body(*body),
        Err(fault) => Reply::Refused(fault, 0),
    }
}

// Brings a board up, and answers as a call that makes no commit.
fn brought_up<B: Board, S: Suite>(cold: Cold<B>, suite: S, slots: u64) -> (Open<B, S>, Reply)
    ensures law { Keeps (S.Suite.scheme suite) (cold_in (B.Board.meaning cold.board)) (bringing_up slots (S.Suite.scheme suite).number) (answer_in result.1) (world_in (B.Board.meaning result.0.board) result.0.chip) }
    ensures does { BringsUp (S.Suite.scheme suite) slots (B.Board.meaning cold.board) (answer_in result.1) (B.Board.meaning result.0.board) (world_in (B.Board.meaning result.0.board) result.0.chip) }
    ensures suite { result.0.suite ≡ suite }
{
    let (open, outcome) = cold.bring_up(suite, slots);
    let report = Report {
        commits: 0,
        outcome,
    };
    (open, Reply::from(report))
}

// The clauses of each event are those of `run`, a public promise whose words stay; a record of them for the private calls alone would say them twice.
impl<B: Tamper + Recharge, S: Suite + Copy> Open<B, S> {
    // Reads the body at an address.
    fn play_read(self, at: usize) -> (Open<B, S>, Reply)
        ensures plays { (n : ℕ) → PlaysOne (S.Suite.scheme self.suite) n (world_in (B.Board.meaning self.board) self.chip) (Reading at) result.1 (world_in (B.Board.meaning result.0.board) result.0.chip) }
        ensures does { DoesOne (S.Suite.scheme self.suite) 0 endless (B.Board.meaning self.board) self.chip (Reading at) result.1 (B.Board.meaning result.0.board) result.0.chip }
        ensures suite { result.0.suite ≡ self.suite }
    {
        let mut body = [0; 8];
        let outcome = self.read(at, &mut body);
        (self, read_reply(outcome, &body))
    }

    // Writes a body at an address.
    fn play_write(mut self, at: usize, body: &[u64; 8]) -> (Open<B, S>, Reply)
        ensures plays { (n : ℕ) → PlaysOne (S.Suite.scheme self.suite) n (world_in (B.Board.meaning self.board) self.chip) (Writing at body.now) result.1 (world_in (B.Board.meaning result.0.board) result.0.chip) }
        ensures does { DoesOne (S.Suite.scheme self.suite) 0 endless (B.Board.meaning self.board) self.chip (Writing at body.now) result.1 (B.Board.meaning result.0.board) result.0.chip }
        ensures suite { result.0.suite ≡ self.suite }
    {
        let report = self.write(at, body);
        (self, Reply::from(report))
    }

    // Evicts every dirty node.
    fn play_flush(mut self) -> (Open<B, S>, Reply)
        ensures plays { (n : ℕ) → PlaysOne (S.Suite.scheme self.suite) n (world_in (B.Board.meaning self.board) self.chip) Flushing result.1 (world_in (B.Board.meaning result.0.board) result.0.chip) }
        ensures does { DoesOne (S.Suite.scheme self.suite) 0 endless (B.Board.meaning self.board) self.chip Flushing result.1 (B.Board.meaning result.0.board) result.0.chip }
        ensures suite { result.0.suite ≡ self.suite }
    {
        let report = self.flush();
        (self, Reply::from(report))
    }

    // Shuts the board down and brings it up again.
    fn restart(self, slots: u64) -> (Open<B, S>, Reply)
        ensures plays { PlaysOne (S.Suite.scheme self.suite) slots (world_in (B.Board.meaning self.board) self.chip) Restart result.1 (world_in (B.Board.meaning result.0.board) result.0.chip) }
        ensures does { DoesOne (S.Suite.scheme self.suite) slots endless (B.Board.meaning self.board) self.chip Restart result.1 (B.Board.meaning result.0.board) result.0.chip }
        ensures suite { result.0.suite ≡ self.suite }
    {
        let suite = self.suite;
        brought_up(self.shut_down(), suite, slots)
    }

    // Shuts the board down, sets its power anew and brings it up again.
    fn restart_with(self, slots: u64, left: Option<u64>) -> (Open<B, S>, Reply)
        ensures plays { PlaysOne (S.Suite.scheme self.suite) slots (world_in (B.Board.meaning self.board) self.chip) (Recharging left) result.1 (world_in (B.Board.meaning result.0.board) result.0.chip) }
        ensures does { DoesOne (S.Suite.scheme self.suite) slots (B.Recharge.supply self.board) (B.Board.meaning self.board) self.chip (Recharging left) result.1 (B.Board.meaning result.0.board) result.0.chip }
        ensures suite { result.0.suite ≡ self.suite }
    {
        let suite = self.suite;
        let mut cold = self.shut_down();
        cold.recharge(left);
        brought_up(cold, suite, slots)
    }

    // Puts a line in place from outside.
    fn put_line(mut self, at: usize, line: Line) -> (Open<B, S>, Reply)
        ensures plays { (n : ℕ) → PlaysOne (S.Suite.scheme self.suite) n (world_in (B.Board.meaning self.board) self.chip) (Tampering at line) result.1 (world_in (B.Board.meaning result.0.board) result.0.chip) }
        ensures does { DoesOne (S.Suite.scheme self.suite) 0 endless (B.Board.meaning self.board) self.chip (Tampering at line) result.1 (B.Board.meaning result.0.board) result.0.chip }
        ensures suite { result.0.suite ≡ self.suite }
    {
        let placed = self.tamper(at, line);
        (self, Reply::Put(placed))
    }

    // One event of a script, on a board with so many slots.
    pub fn run(self, slots: u64, event: &Event) -> (Open<B, S>, Reply)
        ensures plays { PlaysOne (S.Suite.scheme self.suite) slots (world_in (B.Board.meaning self.board) self.chip) event.now result.1 (world_in (B.Board.meaning result.0.board) result.0.chip) }
        ensures does { DoesOne (S.Suite.scheme self.suite) slots (B.Recharge.supply self.board) (B.Board.meaning self.board) self.chip event.now result.1 (B.Board.meaning result.0.board) result.0.chip }
        ensures suite { result.0.suite ≡ self.suite }
    {
        match event {
            Event::Read(at) => self.play_read(*at),
            Event::Write(at, body) => self.play_write(*at, body),
            Event::Flush => self.play_flush(),
            Event::Restart => self.restart(slots),
            Event::Recharge(left) => self.restart_with(slots, *left),
            Event::Tamper(at, line) => self.put_line(*at, *line),
        }
    }

    // Runs events one after another, as many as there is room for replies. Each finds what came before.
    pub fn run_script(self, slots: u64, events: &[Event], replies: &mut [Reply]) -> Open<B, S>
        ensures plays { Plays (S.Suite.scheme self.suite) slots (world_in (B.Board.meaning self.board) self.chip) (take (min (length events.now) (length replies.old)) events.now) (take (min (length events.now) (length replies.old)) replies.new) (world_in (B.Board.meaning result.board) result.chip) }
        ensures does { DoesAll (S.Suite.scheme self.suite) slots (B.Board.meaning self.board) self.chip (take (min (length events.now) (length replies.old)) events.now) (take (min (length events.now) (length replies.old)) replies.new) (B.Board.meaning result.board) result.chip }
        ensures rest { drop (length events.now) replies.new ≡ drop (length events.now) replies.old }
        ensures suite { result.suite ≡ self.suite }
    {
        // The replies are put in place by index: a proof knows nothing of them after a `zip` with their `iter_mut`, and with `enumerate` in its place the events would have the index.
        let mut current = self;
        let played = &events[..events.len().min(replies.len())];
        for (i, event) in played.iter().enumerate() {
            let (next, reply) = current.run(slots, event);
            replies[i] = reply;
            current = next;
        }
        current
    }
}
