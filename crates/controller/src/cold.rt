ghost use Rattle.std.specs.Prelude.{◌≡◌};

use board::board::Board;

// A board that is not brought up: met at power-on, formatted, or shut down. It cannot be read.
pub struct Cold<B: Board> {
    pub(crate) board: B,
}

impl<B: Board> Cold<B> {
    // A board as it is met at power-on.
    pub fn new(board: B) -> Cold<B>
        ensures { result.board ≡ board }
    {
        Cold { board }
    }

    // The board itself.
    pub fn into_board(self) -> B
        ensures { result ≡ self.board }
    {
        let Cold { board } = self;
        board
    }

    // The board, to look at.
    pub fn board(&self) -> &B
        ensures { result.now ≡ self.now.board }
    {
        &self.board
    }
}
