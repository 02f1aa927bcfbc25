// A section of the stream: its kind, three numbers, its texts, and a number that ends it.
use crate::stream::next_number;
use std::io;
use std::io::Read;

// How much is lent for a scenario: bytes of work and of record, and line places.
#[derive(Clone, Copy)]
pub(crate) struct Room {
    pub(crate) work: usize,
    pub(crate) record: usize,
    pub(crate) lines: usize,
}

// What is printed of a scenario that is read.
#[derive(Clone, Copy)]
pub(crate) enum Shown {
    // The record, and the lines of the steps.
    Record,
    // The same, and the tree left in the work.
    RecordAndTree,
    // Only how much of each is written, and the count of steps.
    Sizes,
}

// What is asked of each text.
#[derive(Clone, Copy)]
pub(crate) enum Question {
    // The header at a place of a text.
    Header { at: usize },
    // Whether so many bytes of a text are the same as the others.
    Same { size: usize },
    // The lines of a text.
    Lines,
    // Where the key of a line ends, and the line's value.
    Value,
    // The tree of a text that is lent 1,048,576 bytes.
    Tree,
    // The least work with which a text is answered, from no byte on, and the answer.
    LeastWork,
    // The scenario of a text, and what is left in what is lent.
    Scenario { room: Room, shown: Shown },
    // What the check of a record and its lookups answer, and what a panel shows of it.
    Record,
    // The check of a record's steps, and what a panel shows of it. A text has the record's length and a count of lines in front, then the
    // lines, the record and the names.
    RecordCheck,
    // The lookups by id, by key and of `times`, and what a panel shows. A text has the record's length in front, then the record and what is
    // looked for, as an id and as a key.
    Lookups,
    // What drums on one supply get in a beat. A text has a count of wishes and what the supply allows in front, then the wishes.
    Shares,
    // A hammer log against a microphone log. A text has five numbers in front, how many hammers and sounds there are and the places of the
    // three lists, then the times of the hammers and of the sounds.
    Logs,
    // What the check of a record answers, and what a panel shows of it.
    Panel,
    // Nothing, where there is no such kind.
    Nothing,
}

#[derive(Clone, Copy)]
pub(crate) enum Section {
    // Items at the ends of their ranges. It has no texts and no end.
    Items,
    Texts(Question),
    // What is asked of a record, of one that is mostly zeros. It has two texts and no end: one at the front and one from a place on. The
    // record ends at `end`.
    LongRecord { from: usize, end: usize },
    // Parts that are in order and inside, and parts that are not. It has no texts and no end.
    Parts,
    // The check of a scenario's steps, and the times of each. The first text is the list of known names.
    ScenarioChecks,
}

// Of all places the largest number stands for the last one that there can be.
fn place(number: u32) -> usize {
    if number == u32::MAX {
        usize::MAX
    } else {
        number as usize
    }
}

impl From<[u32; 4]> for Section {
    // Of the kind and its three numbers.
    fn from(numbers: [u32; 4]) -> Section {
        let [kind, first, second, third] = numbers;
        let room = Room {
            work: first as usize,
            record: second as usize,
            lines: third as usize,
        };
        let question = match kind {
            0 => return Section::Items,
            1 => Question::Header { at: place(first) },
            2 => Question::Same {
                size: first as usize,
            },
            3 => Question::Lines,
            4 => Question::Value,
            5 => Question::Tree,
            6 => Question::LeastWork,
            7 => Question::Scenario {
                room,
                shown: Shown::Record,
            },
            8 => Question::Scenario {
                room,
                shown: Shown::RecordAndTree,
            },
            9 => Question::Scenario {
                room,
                shown: Shown::Sizes,
            },
            10 => Question::Record,
            11 => {
                return Section::LongRecord {
                    from: first as usize,
                    end: second as usize,
                };
            }
            12 => return Section::Parts,
            13 => return Section::ScenarioChecks,
            14 => Question::RecordCheck,
            15 => Question::Lookups,
            16 => Question::Shares,
            17 => Question::Logs,
            18 => Question::Panel,
            _ => Question::Nothing,
        };
        Section::Texts(question)
    }
}

// None where the stream ends, or where the largest number stands for a kind. A head that is cut off has the largest numbers behind.
pub(crate) fn next_section(input: &mut impl Read) -> io::Result<Option<Section>> {
    let kind = next_number(input)?;
    let first = next_number(input)?;
    let second = next_number(input)?;
    let third = next_number(input)?;
    Ok((kind != u32::MAX).then_some(Section::from([kind, first, second, third])))
}
