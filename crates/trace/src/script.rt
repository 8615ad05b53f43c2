// The script's calls: an operation's number, its arguments, and the words that follow them.
use crate::Stop;
use crate::input::Source;
use crate::writing::Room;
use model::{CausalGraph, EventIndex, EventRunIndex};
use walk::{MAX_ROWS, MAX_STEPS};

// The most words that may follow the arguments.
pub const MAX_LIST: usize = 65536;

// What the words that follow the arguments are read into: a list, or the record of a graph.
#[derive(Drop)]
pub struct Words {
    pub list: [u32; MAX_LIST],
    pub record: CausalGraph,
}

// A call and its arguments, with the rooms of the lent lists that it writes.
#[derive(Clone, Copy)]
pub enum Call<'a> {
    New,
    After {
        events: EventIndex,
        frontier: &'a [u32],
    },
    Push {
        len: u32,
        parents: &'a [u32],
    },
    Start(EventIndex),
    Take,
    Cut {
        from: EventRunIndex,
        room: Room<MAX_STEPS>,
    },
    Walk {
        first_run: EventRunIndex,
        end_run: EventRunIndex,
        known: u32,
        first: u32,
        rows: Room<MAX_ROWS>,
        steps: Room<MAX_STEPS>,
    },
    Replay {
        rows: Room<MAX_ROWS>,
        steps: Room<MAX_STEPS>,
    },
    Archive(Room<MAX_STEPS>),
    Concurrent {
        run: EventRunIndex,
        room: Room<MAX_STEPS>,
    },
    Run(EventRunIndex),
    Event(EventIndex),
    Extends(&'a [u32]),
    Graph,
    Raw(&'a CausalGraph),
    Reader(&'a [u32]),
    Wanted {
        ranges: &'a [u32],
        room: Room<MAX_STEPS>,
    },
}

// Reads the next call. Rooms are tested once all its words are read.
pub(crate) fn read<'a>(source: &mut Source, words: &'a mut Words) -> Result<Call<'a>, Stop> {
    match source.first_word()? {
        0 => Ok(Call::New),
        1 => {
            let events = EventIndex(source.word()?);
            let frontier = source.counted(&mut words.list)?;
            Ok(Call::After { events, frontier })
        }
        2 => {
            let len = source.word()?;
            let parents = source.counted(&mut words.list)?;
            Ok(Call::Push { len, parents })
        }
        3 => Ok(Call::Start(EventIndex(source.word()?))),
        4 => Ok(Call::Take),
        5 => {
            let [from, room] = source.words::<2>()?;
            Ok(Call::Cut {
                from: EventRunIndex(from),
                room: Room::try_from(room)?,
            })
        }
        6 => walk(source),
        7 => {
            let [rows, steps] = source.words::<2>()?;
            Ok(Call::Replay {
                rows: Room::try_from(rows)?,
                steps: Room::try_from(steps)?,
            })
        }
        8 => Ok(Call::Archive(Room::try_from(source.word()?)?)),
        9 => {
            let [run, room] = source.words::<2>()?;
            Ok(Call::Concurrent {
                run: EventRunIndex(run),
                room: Room::try_from(room)?,
            })
        }
        10 => Ok(Call::Run(EventRunIndex(source.word()?))),
        11 => Ok(Call::Event(EventIndex(source.word()?))),
        12 => Ok(Call::Extends(source.counted(&mut words.list)?)),
        13 => Ok(Call::Graph),
        14 => {
            words.record = record(source)?;
            Ok(Call::Raw(&words.record))
        }
        15 => Ok(Call::Reader(source.counted(&mut words.list)?)),
        20 => {
            let ranges = source.counted(&mut words.list)?;
            let room = Room::try_from(source.word()?)?;
            Ok(Call::Wanted { ranges, room })
        }
        _ => Err(Stop::Bad),
    }
}

// The arguments of a walk.
fn walk<'a>(source: &mut Source) -> Result<Call<'a>, Stop> {
    let [first_run, end_run, known, first, rows, steps] = source.words::<6>()?;
    Ok(Call::Walk {
        first_run: EventRunIndex(first_run),
        end_run: EventRunIndex(end_run),
        known,
        first,
        rows: Room::try_from(rows)?,
        steps: Room::try_from(steps)?,
    })
}

// The record of a graph: four counts and the first changed run, and then its lists.
fn record(source: &mut Source) -> Result<CausalGraph, Stop> {
    let [
        run_count,
        entry_count,
        frontier_count,
        mark_count,
        changed_from,
    ] = source.words::<5>()?;
    Ok(CausalGraph {
        starts: source.words()?,
        parent_starts: source.words()?,
        parents: source.words()?,
        frontier: source.words()?,
        seen_prefix_len: source.words()?,
        critical_versions: source.words()?,
        run_count: run_count as usize,
        entry_count: entry_count as usize,
        frontier_count: frontier_count as usize,
        mark_count: mark_count as usize,
        changed_from: EventRunIndex(changed_from),
    })
}
