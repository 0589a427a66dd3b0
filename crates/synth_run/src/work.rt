ghost use Rattle.std.specs.Prelude.{◌≡◌, None};

use cell_counters::{Board, Root};
use command_texts::Text;

/// What a command has worked out: its text, and the board and the root of the game that it solved.
#[derive(Drop)]
pub struct Work {
    pub text: Text,
    pub played: Option<(Board, Root)>,
}

impl Work {
    /// A text for which no game was solved on a board that is left.
    pub fn of_text(text: Text) -> Work
        ensures { result ≡ record { text = text; played = None } }
    {
        Work { text, played: None }
    }
}
