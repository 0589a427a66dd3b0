ghost use Rattle.std.specs.Prelude.{◌≡◌, ◌↔◌, ◌^◌, ◌<◌, ◌≤◌, ℕ, ℤ, List, Some, [], ◌∷◌, length, IfSome, IfNone, IsTrue};
ghost use Rattle.std.specs.Fmt.{decimal};
ghost use Rattle.command_line.specs.Command.{as_words, IsOfCommand, AreOfNoCommand};
ghost use Rattle.base.specs.Workers.{AreWorkers};
ghost use Rattle.command_line.specs.inside.ArgumentSpelling.{Spell};
ghost use Rattle.base.specs.declared.limits.TheConstants.{STATES_LIMIT};

use crate::state_numbers::StateNumbers;
use base::limits::{DEMO_LIMIT, SAMPLES_LIMIT, WORKERS_LIMIT};
use itoa::Buffer;
use line_words::parse_number;

/// What the command line requests.
#[derive(Clone, Copy, PartialEq, Eq)]
pub enum Command {
    /// Solve the plant on the source with so many workers.
    Synth {
        workers: u32,
    },
    /// Judge the table on the source.
    Check,
    /// Rewrite the table on the source in the newest text.
    Upgrade,
    /// Drive the plant of the table on the source from a start, for at most so many samples, under the noises of a seed.
    Sim {
        samples: u32,
        seed: u64,
        start: StateNumbers,
    },
    /// Solve the demo plant of a number with so many workers.
    Demo {
        number: u32,
        workers: u32,
    },
    /// Bring the plant on the source into its targets and keep it there, solved with so many workers.
    Stay {
        workers: u32,
    },
    /// Visit the targets of the plant on the source in turn, solved with so many workers.
    Patrol {
        workers: u32,
    },
}

/// The command of the arguments.
pub fn parse_command(arguments: &[&str]) -> Option<Command>
    ensures found { IfSome result (IsOfCommand (as_words arguments.now)) }
    ensures none { IfNone result (AreOfNoCommand (as_words arguments.now)) }
{
    match arguments.len() {
        1 => parse_one(arguments[0]),
        2 => parse_two(arguments[0], arguments[1]),
        3 => parse_three(arguments[0], arguments[1], arguments[2]),
        4..=9 => parse_more(arguments[0], arguments[1], arguments[2], &arguments[3..]),
        _ => None,
    }
}

fn parse_one(name: &str) -> Option<Command>
    ensures found { IfSome result (IsOfCommand (name.now ∷ [])) }
    ensures none { IfNone result (AreOfNoCommand (name.now ∷ [])) }
{
    if is_named(name, "check") {
        Some(Command::Check)
    } else if is_named(name, "upgrade") {
        Some(Command::Upgrade)
    } else {
        None
    }
}

fn parse_two(name: &str, workers: &str) -> Option<Command>
    ensures found { IfSome result (IsOfCommand (name.now ∷ workers.now ∷ [])) }
    ensures none { IfNone result (AreOfNoCommand (name.now ∷ workers.now ∷ [])) }
{
    let workers = parse_workers(workers)?;
    if is_named(name, "synth") {
        Some(Command::Synth { workers })
    } else if is_named(name, "stay") {
        Some(Command::Stay { workers })
    } else if is_named(name, "patrol") {
        Some(Command::Patrol { workers })
    } else {
        None
    }
}

fn parse_three(name: &str, number: &str, workers: &str) -> Option<Command>
    ensures found { IfSome result (IsOfCommand (name.now ∷ number.now ∷ workers.now ∷ [])) }
    ensures none { IfNone result (AreOfNoCommand (name.now ∷ number.now ∷ workers.now ∷ [])) }
{
    let number = parse_between(number, 1, DEMO_LIMIT)? as u32;
    let workers = parse_workers(workers)?;
    if is_named(name, "demo") {
        Some(Command::Demo { number, workers })
    } else {
        None
    }
}

fn parse_more(name: &str, samples: &str, seed: &str, numbers: &[&str]) -> Option<Command>
    requires some { 1 ≤ length numbers.now }
    requires most { length numbers.now ≤ STATES_LIMIT }
    ensures found { IfSome result (IsOfCommand (name.now ∷ samples.now ∷ seed.now ∷ as_words numbers.now)) }
    ensures none { IfNone result (AreOfNoCommand (name.now ∷ samples.now ∷ seed.now ∷ as_words numbers.now)) }
{
    let samples = parse_between(samples, 0, SAMPLES_LIMIT)? as u32;
    let seed = parse_between(seed, 0, u64::MAX)?;
    let start = parse_start(numbers)?;
    if is_named(name, "sim") {
        Some(Command::Sim {
            samples,
            seed,
            start,
        })
    } else {
        None
    }
}

/// The number of workers that an argument spells.
pub fn parse_workers(word: &str) -> Option<u32>
    ensures found { IfSome result (λ n. AreWorkers n × (word.now ≡ decimal n)) }
    ensures none { IfNone result ((n : ℕ) → AreWorkers n → word.now ≡ decimal n → ⊥) }
{
    Some(parse_between(word, 1, WORKERS_LIMIT)? as u32)
}

/// The start whose numbers the arguments spell.
fn parse_start(arguments: &[&str]) -> Option<StateNumbers>
    requires { length arguments.now ≤ STATES_LIMIT }
    ensures found { IfSome result (Spell (as_words arguments.now)) }
    ensures none { IfNone result ((numbers : List ℤ) → Spell (as_words arguments.now) numbers → ⊥) }
{
    let mut start = StateNumbers::empty();
    for word in arguments {
        start.push(parse_number(word.as_bytes())?.into());
    }
    Some(start)
}

/// The number within bounds that an argument spells.
fn parse_between(word: &str, least: u64, most: u64) -> Option<u64>
    ensures found { IfSome result (λ n. (least ≤ n) × (n ≤ most) × (word.now ≡ decimal n)) }
    ensures none { IfNone result ((n : ℕ) → least ≤ n → n ≤ most → word.now ≡ decimal n → ⊥) }
{
    match parsed(word) {
        Some(n) if least <= n && n <= most && is_spelling(n, word) => Some(n),
        _ => None,
    }
}

/// The number that an argument spells as it is printed. Of other arguments nothing is said.
fn parsed(word: &str) -> Option<u64>
    ensures { (n : ℕ) → n < 2 ^ 64 → word.now ≡ decimal n → result ≡ Some n }
{
    word.parse::<u64>().ok()
}

fn is_spelling(number: u64, word: &str) -> bool
    ensures { IsTrue result ↔ (word.now ≡ decimal number) }
{
    Buffer::new().format(number) == word
}

/// Whether an argument is a command's name.
fn is_named(argument: &str, name: &str) -> bool
    ensures { IsTrue result ↔ (argument.now ≡ name.now) }
{
    argument == name
}
