// The words of the command line.
ghost use Rattle.std.specs.Prelude.{◌≡◌, ◌≢◌, ℕ, [], ◌∷◌, decimal, MatchOption};
ghost use Rattle.aas_server.specs.CommandLine.{IsAsked, IsCount, begins_with_dash};

use aas_model::{Many, Text};
use itoa::Buffer;

/// The most clients that are served.
const MOST_CLIENTS: u32 = 1_000_000;

/// The most properties that the demo has.
const MOST_PROPERTIES: u32 = 65_536;

/// What the words of the command line ask for.
#[derive(Clone, Copy)]
pub enum CommandLine<'a> {
    /// The value form of the element on the console.
    Value,
    /// A journal without payloads on the disk.
    Init,
    /// The repository on the disk, and the console as its one connection.
    Pipe,
    /// The repository on the disk, and so many clients of a wire, 1 to 1,000,000. The address stands in the words.
    Serve {
        count: u32,
    },
    /// Which references lead nowhere in the documents on the disk.
    Check,
    /// The documents on the disk as one environment.
    Export,
    /// The environment on the console, put into the documents on the disk.
    Import,
    /// The same of an environment with so many properties, 1 to 65,536.
    Demo {
        count: u32,
    },
    /// A journal of one record in the place of the one on the disk.
    Checkpoint,
    /// Whether a submodel conforms to a template, both on the disk. Each word stands for an identifier.
    Conform {
        template: &'a Text,
        instance: &'a Text,
    },
}

/// The command that the words ask for, or `None` where they ask for none.
pub fn command_of(words: &Many<Text>) -> Option<CommandLine<'_>>
    ensures { IsAsked words.now result }
{
    match words.as_slice() {
        [word] => lone(word),
        [word, count] => demo_with_count(word, count),
        [word, first, second] => with_two(word, first, second),
        _ => None,
    }
}

/// The command of one word.
fn lone<'a>(word: &Text) -> Option<CommandLine<'a>>
    ensures { IsAsked (word.now ∷ []) result }
{
    match word.as_str() {
        "value" => Some(CommandLine::Value),
        "init" => Some(CommandLine::Init),
        "pipe" => Some(CommandLine::Pipe),
        "check" => Some(CommandLine::Check),
        "export" => Some(CommandLine::Export),
        "import" => Some(CommandLine::Import),
        "checkpoint" => Some(CommandLine::Checkpoint),
        _ => None,
    }
}

/// The command of `demo` and a count.
fn demo_with_count<'a>(word: &Text, count: &Text) -> Option<CommandLine<'a>>
    ensures { IsAsked (word.now ∷ count.now ∷ []) result }
{
    if word.as_str() != "demo" {
        return None;
    }
    match count_of(count, MOST_PROPERTIES) {
        Some(count) => Some(CommandLine::Demo { count }),
        None => None,
    }
}

/// The command of `serve`, an address and a count, or of `conform` and two words that stand for identifiers.
fn with_two<'a>(word: &Text, first: &'a Text, second: &'a Text) -> Option<CommandLine<'a>>
    ensures { IsAsked (word.now ∷ first.now ∷ second.now ∷ []) result }
{
    if is_option(first) || is_option(second) {
        return None;
    }
    match word.as_str() {
        "serve" => match count_of(second, MOST_CLIENTS) {
            Some(count) => Some(CommandLine::Serve { count }),
            None => None,
        },
        "conform" => Some(CommandLine::Conform {
            template: first,
            instance: second,
        }),
        _ => None,
    }
}

/// Whether the word begins with `-`.
fn is_option(word: &Text) -> bool
    ensures { result ≡ begins_with_dash word.now }
{
    word.as_str().starts_with('-')
}

/// The count up to `most` that the word writes, or `None` where it writes none.
fn count_of(word: &Text, most: u32) -> Option<u32>
    ensures { MatchOption result ((n : ℕ) → IsCount most n → word.now ≢ decimal n)
        (λ n. IsCount most n × (word.now ≡ decimal n)) }
{
    let Ok(count) = word.as_str().parse::<u32>() else {
        return None;
    };
    if count == 0 || count > most {
        return None;
    }
    if Buffer::new().format(count) == word.as_str() {
        Some(count)
    } else {
        None
    }
}
