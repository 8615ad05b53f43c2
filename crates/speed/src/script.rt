// The words on standard input, 0 after the last.
use stdio::BUFFER;

// As many words as the buffer has.
pub const WORDS: usize = BUFFER / 4;

// What is done as often as the script says.
#[derive(Clone, Copy)]
pub enum Task {
    Nothing,
    Replay,
    Pushes,
    ArchivePoints,
    WantedParents,
}

// By its number in the script.
impl From<u32> for Task {
    fn from(word: u32) -> Task {
        match word {
            1 => Task::Replay,
            2 => Task::Pushes,
            3 => Task::ArchivePoints,
            4 => Task::WantedParents,
            _ => Task::Nothing,
        }
    }
}

// How often, what, how many pushes, and the words of these and of the ranges.
#[derive(Clone, Copy)]
pub struct Script<'a> {
    pub times: u32,
    pub task: Task,
    pub pushes: u32,
    pub rest: &'a [u32],
}

impl<'a> Script<'a> {
    // The script that the words are.
    pub(crate) fn new(words: &'a [u32; WORDS]) -> Script<'a> {
        Script {
            times: words[0],
            task: Task::from(words[1]),
            pushes: words[2],
            rest: &words[3..],
        }
    }
}

// A word, then a count of words and these, and what follows; none if not all of them are there.
pub(crate) fn counted(words: &[u32]) -> Option<(u32, &[u32], &[u32])> {
    let [first, count, rest @ ..] = words else {
        return None;
    };
    let n = *count as usize;
    Some((*first, rest.get(..n)?, rest.get(n..)?))
}
