//! The arguments of `live`.

ghost use Rattle.std.specs.Prelude.{◌≡◌, ◌↔◌, ℕ, codes, IfSome, IfNone, IsTrue};
ghost use Rattle.command_line.specs.Command.{as_words};
ghost use Rattle.live_run.specs.LiveRuns.{IsLiveCommand};

use command_line::parse_workers;

/// The number of readers that the arguments request.
pub(crate) fn parse_readers(arguments: &[&str]) -> Option<u32>
    ensures found { IfSome result (IsLiveCommand (as_words arguments.now)) }
    ensures none { IfNone result ((readers : ℕ) → IsLiveCommand (as_words arguments.now) readers → ⊥) }
{
    if arguments.len() == 2 && is_live(arguments[0]) {
        parse_workers(arguments[1])
    } else {
        None
    }
}

/// Whether a word is the command's name.
pub fn is_live(word: &str) -> bool
    ensures { IsTrue result ↔ (word.now ≡ codes "live") }
{
    word == "live"
}
