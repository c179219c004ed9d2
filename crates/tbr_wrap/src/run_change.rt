//! What happens to the runs of a block, for contracts alone to read.
ghost use Rattle.std.specs.Prelude.{◌≡◌, ◌++◌, ◌∷◌, [], length, chars};
ghost use Rattle.tbr_wrap.specs.Story.{text_changes};

use tbr_model::{History, WhiteSpace};

/// What happens to a run. A history keeps with each change the tags of its character.
#[derive(Drop)]
pub enum RunChange {
    /// A call begins.
    Called,
    /// A character joins it.
    Character(char, WhiteSpace),
    /// A marker joins it.
    Marker(String),
    /// The markers of the current word are taken out of it.
    Taken,
    /// The run ends.
    Ended,
    /// The first line that wasn't handed out is handed out.
    HandedOut,
}

/// What happened to the runs of a block.
pub type RunHistory<T> = History<RunChange, T, T>;

/// Notes the `count` characters of a text.
pub fn note_text<T>(
    changes: &mut RunHistory<T>,
    text: &str,
    count: usize,
    main_tag: &T,
    wrap_tag: &T,
    mode: WhiteSpace,
)
    requires { count ≡ length (chars text.now) }
    ensures { changes.new.items ≡ changes.old.items
        ++ text_changes (chars text.now) main_tag.now wrap_tag.now mode }
{
    let mut rest = text.chars();
    for _ in 0..count {
        if let Some(c) = rest.next() {
            let change = RunChange::Character(c, mode);
            *changes = changes.appended(&change, main_tag, wrap_tag);
        }
    }
}

/// The history with one more marker, and the marker's name. A marker has no tag, so `tag` only fills the place.
pub fn with_marker<T>(changes: &RunHistory<T>, name: String, tag: &T) -> (RunHistory<T>, String)
    ensures changes { result.0.items ≡ changes.now.items ++ (RunChange.Marker name, tag.now, tag.now) ∷ [] }
    ensures name { result.1 ≡ name }
{
    let change = RunChange::Marker(name);
    let changes = changes.appended(&change, tag, tag);
    match change {
        RunChange::Marker(name) => (changes, name),
        _ => unreachable!(),
    }
}
