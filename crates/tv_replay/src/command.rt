//! The commands of the program.
ghost use Rattle.std.specs.Prelude.{◌≡◌, ◌∷◌, [], map, string_bytes};
ghost use Rattle.tv_replay.specs.Commands.{IsCommandOf};
ghost use Rattle.tv_script.specs.Fields.{number_at};

use tv_script::number_of;

// The most commits of which a script is generated.
const MOST_COMMITS: u32 = 1000;

/// What a command line asks for.
#[derive(Clone, Copy)]
pub(crate) enum Command<'a> {
    /// To replay a script over a folder, with the schema of a path.
    Replay(&'a str, &'a str),
    /// To measure the index of a folder, with the schema of a path.
    Space(&'a str, &'a str),
    /// To generate a script of so many commits, and to replay it.
    Generate(u32),
}

/// The command of a command line.
pub(crate) fn command_of(words: &[String]) -> Option<Command<'_>>
    ensures { IsCommandOf (map string_bytes words.now) result }
{
    match words {
        [command, folder, path] => on_folder(command.as_str(), folder.as_str(), path.as_str()),
        [command, number] if command.as_str() == "generate" => {
            Some(Command::Generate(commits_of(number.as_str())?))
        }
        _ => None,
    }
}

// The command of this word for a folder, with the schema of a path.
#[tactic(auto, using(crate::proofs::CommandWords::are_of, crate::proofs::CommandWords::are_none))]
fn on_folder<'a>(command: &str, folder: &'a str, path: &'a str) -> Option<Command<'a>>
    ensures { IsCommandOf (command.now ∷ folder.now ∷ path.now ∷ []) result }
{
    if command == "replay" {
        Some(Command::Replay(folder, path))
    } else if command == "space" {
        Some(Command::Space(folder, path))
    } else {
        None
    }
}

// The number of commits that a word spells, where a script of as many is generated.
fn commits_of(word: &str) -> Option<u32>
    ensures { result ≡ number_at 1001 word.now }
{
    let n = u32::try_from(number_of(word.as_bytes())?).ok()?;
    if n <= MOST_COMMITS { Some(n) } else { None }
}
