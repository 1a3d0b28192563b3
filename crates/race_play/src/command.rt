//! The commands of the program.
ghost use Rattle.std.specs.Prelude.{◌≡◌, [], ◌∷◌, map};
ghost use Rattle.race_play.specs.Commands.{command_of, command_of_word, storm_of};

use spelling::read_number;

/// A command of the program.
#[derive(Clone, Copy, Debug, PartialEq, Eq)]
pub enum Command {
    /// Plays the script of standard input by its schedule.
    Replay,
    /// Plays the clients of the script of standard input on threads.
    Run,
    /// Makes the script of a storm, plays it and sums its play up: 1 to 16 clients, with 1 to 1,024 calls each.
    Storm { seed: u64, clients: u32, calls: u32 },
    /// Plays the script of standard input by its schedule and writes the image of the words that it leaves.
    Image,
    /// Audits the image of standard input.
    Audit,
}

// A storm of these numbers, where they are within their limits.
fn storm_of(seed: Option<u64>, clients: Option<u64>, calls: Option<u64>) -> Option<Command>
    ensures { result ≡ storm_of seed clients calls }
{
    let (seed, clients, calls) = (seed?, clients?, calls?);
    if (1..=16).contains(&clients) && (1..=1024).contains(&calls) {
        return Some(Command::Storm {
            seed,
            clients: clients as u32,
            calls: calls as u32,
        });
    }
    None
}

// The command of one word.
fn word_told(word: &str) -> Option<Command>
    ensures { result ≡ command_of_word word.now }
{
    if word == "replay" {
        return Some(Command::Replay);
    }
    if word == "run" {
        return Some(Command::Run);
    }
    if word == "image" {
        return Some(Command::Image);
    }
    if word == "audit" {
        return Some(Command::Audit);
    }
    None
}

// The command of four words.
fn storm_told(word: &str, seed: &str, clients: &str, calls: &str) -> Option<Command>
    ensures { result ≡ command_of (word.now ∷ seed.now ∷ clients.now ∷ calls.now ∷ []) }
{
    if word != "storm" {
        return None;
    }
    storm_of(
        read_number(seed.as_bytes()),
        read_number(clients.as_bytes()),
        read_number(calls.as_bytes()),
    )
}

/// The command that the words name: `replay`, `run`, `image` or `audit` alone, or `storm` with a seed below 2^64, 1 to 16 clients and
/// 1 to 1,024 calls, decimal numbers without sign and without a zero in front. None exactly where the words are no such command.
pub fn command_of(words: &[&str]) -> Option<Command>
    ensures { result ≡ command_of (map (λ word. word.now) words.now) }
{
    match words {
        [word] => word_told(word),
        [word, seed, clients, calls] => storm_told(word, seed, clients, calls),
        _ => None,
    }
}
