// Which command words name.
ghost use Rattle.std.specs.Prelude.{◌≡◌, ◌∷◌};
ghost use Rattle.std.specs.Option.{option_map};
ghost use Rattle.wh_csv.specs.Fields.{integer};
ghost use Rattle.wh_command.specs.Commands.{alone, bounded, command_of, command_with, number_in, said, with_numbers, with_one, with_two, words_of};

use wh_base::read_int;

/// A command with its words.
#[derive(Clone, Copy)]
pub enum Command<'a> {
    Show { spec: &'a str, dir: &'a str },
    Plan { spec: &'a str },
    Load { spec: &'a str, dir: &'a str },
    Refresh { names: &'a [String] },
    Query { text: &'a str },
    Dump { relation: &'a str },
    Audit { relation: &'a str, file: &'a str },
    Report,
    Make { number: u32, size: u32 },
}

/// The command that words name.
pub fn command_of(words: &[String]) -> Option<Command<'_>>
    ensures { option_map said result ≡ command_of (words_of words.now) }
{
    match words {
        [verb, rest @ ..] => command_with(verb.as_str(), rest),
        [] => None,
    }
}

// A verb with the words behind it.
fn command_with<'a>(verb: &'a str, words: &'a [String]) -> Option<Command<'a>>
    ensures { option_map said result ≡ command_with verb.now (words_of words.now) }
{
    match words {
        [] => alone(verb),
        _ if verb == "refresh" => Some(Command::Refresh { names: words }),
        [word] => with_one(verb, word.as_str()),
        [first, second] => with_two(verb, first.as_str(), second.as_str()),
        _ => None,
    }
}

fn alone<'a>(verb: &'a str) -> Option<Command<'a>>
    ensures { option_map said result ≡ alone verb.now }
{
    if verb == "report" {
        Some(Command::Report)
    } else {
        None
    }
}

fn with_one<'a>(verb: &'a str, word: &'a str) -> Option<Command<'a>>
    ensures { option_map said result ≡ with_one verb.now word.now }
{
    if verb == "plan" {
        Some(Command::Plan { spec: word })
    } else if verb == "query" {
        Some(Command::Query { text: word })
    } else if verb == "dump" {
        Some(Command::Dump { relation: word })
    } else {
        None
    }
}

fn with_two<'a>(verb: &'a str, first: &'a str, second: &'a str) -> Option<Command<'a>>
    ensures { option_map said result ≡ with_two verb.now first.now second.now }
{
    if verb == "show" {
        Some(Command::Show {
            spec: first,
            dir: second,
        })
    } else if verb == "load" {
        Some(Command::Load {
            spec: first,
            dir: second,
        })
    } else if verb == "audit" {
        Some(Command::Audit {
            relation: first,
            file: second,
        })
    } else if verb == "make" {
        with_numbers(first, second)
    } else {
        None
    }
}

fn with_numbers<'a>(number: &str, size: &str) -> Option<Command<'a>>
    ensures { option_map said result ≡ with_numbers number.now size.now }
{
    Some(Command::Make {
        number: number_in(number, 0, 999_999)?,
        size: number_in(size, 1, 100_000)?,
    })
}

// The number that a word spells, from the least to the most.
fn number_in(word: &str, least: u32, most: u32) -> Option<u32>
    ensures { result ≡ number_in least most word.now }
{
    bounded(integer(word)?, least, most)
}

#[tactic(auto, using(wh_csv::proofs::FieldLemmas::integer_is))]
fn integer(word: &str) -> Option<i64>
    ensures { result ≡ integer word.now }
{
    read_int(word.as_bytes())
}

fn bounded(number: i64, least: u32, most: u32) -> Option<u32>
    ensures { result ≡ bounded least most number }
{
    match u32::try_from(number) {
        Ok(number) if (least..=most).contains(&number) => Some(number),
        _ => None,
    }
}
