ghost use Rattle.std.specs.Prelude.{◌≡◌, ◌≤◌, IfSome};
ghost use Rattle.std.specs.Option.{option_map};
ghost use Rattle.sample_scene.specs.declared.sample.TheConstants.{MAX_NUMBER};
ghost use Rattle.command_outcome.specs.FileWords.{texts};
ghost use Rattle.rulebook_cli.specs.Words.{IsCommand, reading, request_of, sample_number, no_words};
ghost use Rattle.rulebook_cli.specs.Words.{one_word, two_words, four_words, with_words};

use command_outcome::{are_words, is_another};
use reading::number_in;

/// A command with its words, most of which name files.
#[derive(Clone, Copy)]
pub enum Command<'a> {
    /// Which rows of the table no row beats.
    Pick {
        book: &'a str,
        table: &'a str,
    },
    /// How each row of the table stands to each later one.
    Compare {
        book: &'a str,
        table: &'a str,
    },
    /// What a scenario holds.
    Show {
        scenario: &'a str,
    },
    /// Where a list of maneuvers leads, and what it violates.
    Walk {
        scenario: &'a str,
        book: &'a str,
        lattice: &'a str,
        list: &'a str,
    },
    /// Which step the child is from its parent.
    Accept {
        parent: &'a str,
        child: &'a str,
    },
    /// The book that a script makes of the parent.
    Derive {
        parent: &'a str,
        script: &'a str,
    },
    /// How recordings stand to one another.
    Judge {
        scenario: &'a str,
        book: &'a str,
        lattice: &'a str,
        records: &'a str,
    },
    /// The answer over a scene; its certificate is saved.
    Plan {
        scenario: &'a str,
        book: &'a str,
        lattice: &'a str,
        certificate: &'a str,
    },
    /// Whether a certificate shows an answer over a scene.
    Check {
        scenario: &'a str,
        book: &'a str,
        lattice: &'a str,
        certificate: &'a str,
    },
    /// How large the answer over a sample scene is. The number is at most `MAX_NUMBER`.
    Sample {
        number: u32,
    },
    /// What the commands are.
    Help,
}

/// What `--help` writes: the commands with their words.
pub const HELP: &str =
    "pick BOOK TABLE\ncompare BOOK TABLE\nshow SCENARIO\nwalk SCENARIO BOOK LATTICE LIST\nplan SCENARIO BOOK LATTICE CERT\ncheck SCENARIO BOOK LATTICE CERT\naccept PARENT CHILD\nderive PARENT SCRIPT\njudge SCENARIO BOOK LATTICE RECORDS\nsample N\n--help\n";

/// The most digits of the number of a sample scene, as it is given in words.
pub const MAX_DIGITS: usize = 6;

/// The one reading of the words. None where they have none.
pub fn read_words(words: &[String]) -> Option<Command<'_>>
    ensures request { option_map request_of result ≡ reading (texts words.now) }
    ensures within { IfSome result IsCommand }
{
    match words {
        [command, words @ ..] if are_words(words) => with_words(command.as_str(), words),
        _ => None,
    }
}

fn with_words<'a>(command: &str, words: &'a [String]) -> Option<Command<'a>>
    ensures request { option_map request_of result ≡ with_words command.now (texts words.now) }
    ensures within { IfSome result IsCommand }
{
    match words {
        [] => no_words(command),
        [a] => one_word(command, a.as_str()),
        [a, b] => two_words(command, a.as_str(), b.as_str()),
        [a, b, c, d] => four_words(command, a.as_str(), b.as_str(), c.as_str(), d.as_str()),
        _ => None,
    }
}

fn no_words<'a>(command: &str) -> Option<Command<'a>>
    ensures request { option_map request_of result ≡ no_words command.now }
    ensures within { IfSome result IsCommand }
{
    match command {
        "--help" => Some(Command::Help),
        _ => None,
    }
}

// The number of a sample scene.
fn sample_number(word: &str) -> Option<u32>
    ensures value { result ≡ sample_number word.now }
    ensures within { IfSome result (λ number. number ≤ MAX_NUMBER) }
{
    if word.len() > MAX_DIGITS {
        return None;
    }
    match number_in(word.as_bytes()) {
        Some(number) => Some(number as u32),
        None => None,
    }
}

fn one_word<'a>(command: &str, a: &'a str) -> Option<Command<'a>>
    ensures request { option_map request_of result ≡ one_word command.now a.now }
    ensures within { IfSome result IsCommand }
{
    match command {
        "show" => Some(Command::Show { scenario: a }),
        "sample" => {
            let number = sample_number(a)?;
            Some(Command::Sample { number })
        }
        _ => None,
    }
}

fn two_words<'a>(command: &str, a: &'a str, b: &'a str) -> Option<Command<'a>>
    ensures request { option_map request_of result ≡ two_words command.now a.now b.now }
    ensures within { IfSome result IsCommand }
{
    match command {
        "pick" => Some(Command::Pick { book: a, table: b }),
        "compare" => Some(Command::Compare { book: a, table: b }),
        "accept" => Some(Command::Accept {
            parent: a,
            child: b,
        }),
        "derive" => Some(Command::Derive {
            parent: a,
            script: b,
        }),
        _ => None,
    }
}

fn four_words<'a>(
    command: &str,
    a: &'a str,
    b: &'a str,
    c: &'a str,
    d: &'a str,
) -> Option<Command<'a>>
    ensures request { option_map request_of result
        ≡ four_words command.now a.now b.now c.now d.now }
    ensures within { IfSome result IsCommand }
{
    match command {
        "walk" => Some(Command::Walk {
            scenario: a,
            book: b,
            lattice: c,
            list: d,
        }),
        "judge" => Some(Command::Judge {
            scenario: a,
            book: b,
            lattice: c,
            records: d,
        }),
        "plan" if is_another(a, b, c, d) => Some(Command::Plan {
            scenario: a,
            book: b,
            lattice: c,
            certificate: d,
        }),
        "check" if is_another(a, b, c, d) => Some(Command::Check {
            scenario: a,
            book: b,
            lattice: c,
            certificate: d,
        }),
        _ => None,
    }
}
