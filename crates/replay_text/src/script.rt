// A line of the script, taken apart.
use std::str;
use vectors::vector::Segment;

// The word that an event starts with.
#[derive(Clone, Copy)]
pub enum Verb {
    Open,
    Store,
    Data,
    Read,
    Write,
    Zero,
    Alloc,
    Discard,
    Next,
    Carry,
    Tell,
    Collect,
    Show,
}

// What is wrong with a line.
#[derive(Clone, Copy)]
pub enum Flaw {
    Word, // no such event
    Number(usize), // after so many numbers: neither the line's end nor one blank and a number of 64 bits
    Count(Verb), // too few numbers for that event, or too many
    Byte, // a byte above 255
    Code, // a code above 255
    Long, // more than 64 bytes to show
}

// An event: its word, and the numbers after it; 0 for those that are not there. They are an array and a count: memory is fixed.
#[derive(Clone, Copy)]
pub struct Event {
    pub verb: Verb,
    pub count: usize,
    pub values: [u64; MOST],
}

// An offset, and two numbers for each segment, of which there may be one more than a vector takes, so that a script can see it refused.
const MOST: usize = 35;

const MOST_SHOWN: u64 = 64;

// The verbs, by their words.
const VERBS: [(&str, Verb); 13] = [
    ("open", Verb::Open),
    ("store", Verb::Store),
    ("data", Verb::Data),
    ("read", Verb::Read),
    ("write", Verb::Write),
    ("zero", Verb::Zero),
    ("alloc", Verb::Alloc),
    ("discard", Verb::Discard),
    ("next", Verb::Next),
    ("carry", Verb::Carry),
    ("tell", Verb::Tell),
    ("collect", Verb::Collect),
    ("show", Verb::Show),
];

impl TryFrom<&[u8]> for Verb {
    type Error = Flaw;

    fn try_from(word: &[u8]) -> Result<Verb, Flaw> {
        VERBS
            .iter()
            .find(|(name, _)| name.as_bytes() == word)
            .map(|(_, verb)| *verb)
            .ok_or(Flaw::Word)
    }
}

impl Verb {
    // Whether the event takes that many numbers.
    fn takes(self, count: usize) -> bool {
        match self {
            Verb::Read | Verb::Write => count % 2 == 1,
            Verb::Store | Verb::Data => count == 3,
            Verb::Carry => (count == 2) | (count == 3),
            Verb::Next | Verb::Collect => count == 1,
            Verb::Open | Verb::Zero | Verb::Alloc | Verb::Discard | Verb::Tell | Verb::Show => {
                count == 2
            }
        }
    }
}

impl Event {
    // Number i, from 0 on, where there is one.
    pub fn get(self, i: usize) -> Option<u64> {
        if i < self.count {
            self.values.get(i).copied()
        } else {
            None
        }
    }

    // Likewise, and 0 where there is none.
    pub fn number(self, i: usize) -> u64 {
        self.get(i).unwrap_or(0)
    }

    // Number i as a byte, which the script's reader has found it to be; 255 where it is above.
    pub fn byte(self, i: usize) -> u8 {
        u8::try_from(self.number(i)).unwrap_or(255)
    }

    // Segment k, from 0 on, whose start and length stand after the offset; an empty one where there is none.
    pub fn segment(self, k: usize) -> Segment {
        if MOST / 2 <= k {
            return Segment {
                start: 0,
                length: 0,
            };
        }
        Segment {
            start: self.number(2 * k + 1) as usize,
            length: self.number(2 * k + 2) as usize,
        }
    }

    // Whether bytes and codes are at most 255, and no more is to be shown than fits a line.
    fn check_bounds(self) -> Result<(), Flaw> {
        match self.verb {
            Verb::Store | Verb::Data if 255 < self.number(2) => Err(Flaw::Byte),
            Verb::Carry | Verb::Tell if 255 < self.number(1) => Err(Flaw::Code),
            Verb::Show if MOST_SHOWN < self.number(1) => Err(Flaw::Long),
            _ => Ok(()),
        }
    }
}

// The decimal number that a text starts with, of at least one digit and of 64 bits, and what follows it.
fn number(text: &[u8]) -> Option<(u64, &[u8])> {
    let end = text.iter().take_while(|b| b.is_ascii_digit()).count();
    let (digits, rest) = text.split_at(end);
    let n = str::from_utf8(digits).ok()?.parse::<u64>().ok()?;
    Some((n, rest))
}

// The event of a verb and the numbers that follow it, each after one blank, up to the line's end.
fn with_numbers(verb: Verb, text: &[u8]) -> Result<Event, Flaw> {
    let mut values = [0u64; MOST];
    let mut rest = text;
    for count in 0..MOST {
        if rest.is_empty() {
            return Ok(Event {
                verb,
                count,
                values,
            });
        }
        let (n, next) = rest
            .strip_prefix(b" ")
            .and_then(number)
            .ok_or(Flaw::Number(count))?;
        values[count] = n;
        rest = next;
    }
    if rest.is_empty() {
        Ok(Event {
            verb,
            count: MOST,
            values,
        })
    } else {
        Err(Flaw::Count(verb))
    }
}

// The first word of a line, and what follows it.
fn split_word(line: &[u8]) -> (&[u8], &[u8]) {
    let end = line.iter().position(|b| *b == b' ');
    line.split_at(end.unwrap_or(line.len()))
}

// The event of a line, or what is wrong with it: its word, then its numbers from the first to the last, then how many they are.
fn read_event(line: &[u8]) -> Result<Event, Flaw> {
    let (word, numbers) = split_word(line);
    let event = with_numbers(Verb::try_from(word)?, numbers)?;
    if !event.verb.takes(event.count) {
        return Err(Flaw::Count(event.verb));
    }
    event.check_bounds()?;
    Ok(event)
}

// What a line says: none for a comment, which is empty or starts with #.
pub fn parse(line: &[u8]) -> Result<Option<Event>, Flaw> {
    if line.is_empty() || line.starts_with(b"#") {
        return Ok(None);
    }
    read_event(line).map(Some)
}
