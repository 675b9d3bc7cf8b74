ghost use Rattle.std.specs.Prelude.{◌≡◌};
ghost use Rattle.std.specs.Option.{option_map};
ghost use Rattle.command_outcome.specs.FileWords.{texts};
ghost use Rattle.check_command.specs.CheckWords.{check_reading, check_request_of, four_words};
ghost use Rattle.check_command.specs.CheckWords.{no_words, with_words};

use command_outcome::{are_words, is_another};

/// A command of the program that has no command but `check`.
#[derive(Clone, Copy)]
pub enum CheckCommand<'a> {
    /// Whether a certificate shows an answer over a scene.
    Check {
        scenario: &'a str,
        book: &'a str,
        lattice: &'a str,
        certificate: &'a str,
    },
    /// What the commands are.
    Help,
}

/// What `--help` writes: the command with its words.
pub const HELP: &str = "check SCENARIO BOOK LATTICE CERT\n--help\n";

/// The one reading of the words. None where they have none.
pub fn read_words(words: &[String]) -> Option<CheckCommand<'_>>
    ensures { option_map check_request_of result ≡ check_reading (texts words.now) }
{
    match words {
        [command, words @ ..] if are_words(words) => with_words(command.as_str(), words),
        _ => None,
    }
}

fn with_words<'a>(command: &str, words: &'a [String]) -> Option<CheckCommand<'a>>
    ensures { option_map check_request_of result ≡ with_words command.now (texts words.now) }
{
    match words {
        [] => no_words(command),
        [a, b, c, d] => four_words(command, a.as_str(), b.as_str(), c.as_str(), d.as_str()),
        _ => None,
    }
}

fn no_words<'a>(command: &str) -> Option<CheckCommand<'a>>
    ensures { option_map check_request_of result ≡ no_words command.now }
{
    match command {
        "--help" => Some(CheckCommand::Help),
        _ => None,
    }
}

fn four_words<'a>(
    command: &str,
    a: &'a str,
    b: &'a str,
    c: &'a str,
    d: &'a str,
) -> Option<CheckCommand<'a>>
    ensures { option_map check_request_of result
        ≡ four_words command.now a.now b.now c.now d.now }
{
    match command {
        "check" if is_another(a, b, c, d) => Some(CheckCommand::Check {
            scenario: a,
            book: b,
            lattice: c,
            certificate: d,
        }),
        _ => None,
    }
}
