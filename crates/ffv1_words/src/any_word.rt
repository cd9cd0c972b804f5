//! The word `--any` (own): a command of holdings that has it just after its name takes any recording.
ghost use Rattle.std.specs.Prelude.{◌↔◌, IsTrue, List, map, string_bytes};
ghost use Rattle.clap.specs.Words.{Text};
ghost use Rattle.ffv1_words.specs.AnyWords.{IsOfHoldingFiles, HaveAnyWord, SayRecordings};

use ffv1_holding::Recordings;

/// Whether a command of this name makes or reads holding files.
fn is_of_holding_files(name: &str) -> bool
    ensures { IsTrue result ↔ IsOfHoldingFiles name.now }
{
    matches!(
        name,
        "take" | "join" | "merge" | "report" | "restore" | "picture"
    )
}

/// Whether the words, the first of which is the program's own, have `--any` just after such a command.
fn have_any_word(words: &[String]) -> bool
    ensures { IsTrue result ↔ ((others : List Text) × HaveAnyWord (map (λ word. string_bytes word) words.now) others) }
{
    match words {
        [_, command, word, ..] => is_of_holding_files(command) && word.as_str() == "--any",
        _ => false,
    }
}

/// Takes the word `--any` out of the program's words, the first of which is the program's own, and returns of which recordings they
/// are: of any, if it comes just after `take`, `join`, `merge`, `report`, `restore` or `picture`. Else the words stay as they are, and
/// it is of those of the profile; `read_words` refuses `--any` at any other place.
pub fn recordings_of_words(words: &mut Vec<String>) -> Recordings
    ensures { SayRecordings (map (λ word. string_bytes word) words.old.items) (map (λ word. string_bytes word) words.new.items) result }
{
    if !have_any_word(words) {
        return Recordings::Profile;
    }
    words.remove(2);
    Recordings::Any
}
