//! The words with which a board begins.
ghost use Rattle.std.specs.Prelude.{◌≡◌, ◌<◌, length};
ghost use Rattle.board_rounds.specs.inside.FirstWords.{AreUnfilled, words_from};

use crate::start::Start;
use game_core::Forward;

/// The words of a call: to start a thread takes as long as some thousands of them.
const WORDS_PER_TASK: usize = 1 << 14;

/// How many of so many words a call fills. Few words are filled by one call, so that no thread is started for them.
pub(crate) fn words_per_call(len: usize) -> usize
    requires { 0 < len }
    ensures { 0 < result }
{
    if len <= 2 * WORDS_PER_TASK {
        len
    } else {
        WORDS_PER_TASK
    }
}

/// Fills in the numbers of the pairs and of the cells, where the words from one on have them. The words after them stay 0.
pub(crate) fn fill_numbers<S: Start, G: Forward>(g: &G, first: usize, words: &mut [u64])
    requires { AreUnfilled (G.game g.now) (S.number (G.game g.now)) first words.old }
    ensures { words.new ≡ words_from (G.game g.now) (S.number (G.game g.now)) first (length words.old) }
{
    let cells = g.cells() as usize;
    let pairs = (g.cells() * g.inputs()) as usize;
    let end = first + words.len();
    for pair in first..end.min(pairs) {
        words[pair - first] = u64::from(g.fan(pair as u32));
    }
    for at in first.max(pairs)..end.min(pairs + cells) {
        words[at - first] = S::number_at(g, (at - pairs) as u32);
    }
}
