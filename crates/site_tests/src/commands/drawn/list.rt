//! A plain list of scores, by the letter, and what is read of it in order.

use super::asked::{Asked, LETTERS};
use std::alloc::Global;
use std::test::Fail;

const SIZE: usize = LETTERS as usize;

/// The score of each letter, where it has one.
#[derive(Drop)]
pub struct List {
    scores: [Option<i64>; SIZE],
}

/// What is answered.
#[derive(Drop)]
enum Owed {
    Simple(&'static str),
    Number(usize),
    Score(Option<i64>),
    Pairs(Vec<(i64, u8)>),
}

impl List {
    pub fn new() -> List {
        List {
            scores: [None; SIZE],
        }
    }

    fn score(&self, letter: u8) -> Option<i64> {
        self.scores[usize::from(letter.saturating_sub(b'a')) % SIZE]
    }

    /// Gives a letter a score, or none, and says whether it had one.
    fn set(&mut self, letter: u8, score: Option<i64>) -> bool {
        let place = usize::from(letter.saturating_sub(b'a')) % SIZE;
        let had = self.scores[place].is_some();
        self.scores[place] = score;
        had
    }

    /// The letters with their scores, by score and then by letter.
    fn ordered(&self, alloc: Global) -> Result<Vec<(i64, u8)>, Fail> {
        let mut pairs = Vec::new(alloc);
        for letter in b'a'..b'a' + LETTERS {
            if let Some(score) = self.score(letter) {
                pairs.push((score, letter))?;
            }
        }
        pairs.sort()?;
        Ok(pairs)
    }

    /// The same, turned round where it is asked so.
    fn turned(&self, alloc: Global, is_turned: bool) -> Result<Vec<(i64, u8)>, Fail> {
        let mut pairs = self.ordered(alloc)?;
        if is_turned {
            pairs.reverse();
        }
        Ok(pairs)
    }

    /// The place of a letter in that order.
    fn place(&self, alloc: Global, letter: u8, is_turned: bool) -> Result<Owed, Fail> {
        let pairs = self.turned(alloc, is_turned)?;
        let place = pairs.iter().position(|pair| pair.1 == letter);
        Ok(match place {
            Some(place) => Owed::Number(place),
            None => Owed::Score(None),
        })
    }

    /// Takes the first so many out.
    fn pop(&mut self, alloc: Global, count: usize) -> Result<Owed, Fail> {
        let mut pairs = self.ordered(alloc)?;
        pairs.truncate(count);
        for pair in &pairs {
            self.set(pair.1, None);
        }
        Ok(Owed::Pairs(pairs))
    }

    /// Gives a letter a greater score, or one where it has none, and counts that.
    fn raise(&mut self, letter: u8, score: i64) -> usize {
        match self.score(letter) {
            Some(before) if before >= score => 0,
            _ => {
                self.set(letter, Some(score));
                1
            }
        }
    }

    /// How many scores are above one, up to another.
    fn within(&self, above: i64, most: i64) -> usize {
        let mut count: usize = 0;
        for score in self.scores.iter().flatten() {
            if above < *score && *score <= most {
                count = count.saturating_add(1);
            }
        }
        count
    }

    fn size(&self) -> usize {
        self.scores.iter().flatten().count()
    }

    /// A place, of which a negative one counts from the end.
    fn counted(&self, place: i64) -> i64 {
        if place < 0 {
            place.saturating_add(as_number(self.size()))
        } else {
            place
        }
    }

    /// What stands at the places from one to another, both included.
    fn places(&self, alloc: Global, start: i64, stop: i64, is_turned: bool) -> Result<Owed, Fail> {
        let from = self.counted(start);
        let to = self.counted(stop);
        let mut taken = Vec::new(alloc);
        for (place, pair) in self.turned(alloc, is_turned)?.iter().enumerate() {
            let place = as_number(place);
            if from <= place && place <= to {
                taken.push(*pair)?;
            }
        }
        Ok(Owed::Pairs(taken))
    }

    /// What has a score from one to another, but for the first so many, and at most so many.
    fn scores(
        &self,
        alloc: Global,
        bounds: (i64, i64),
        is_turned: bool,
        offset: i64,
        count: i64,
    ) -> Result<Owed, Fail> {
        let mut taken = Vec::new(alloc);
        let mut place: i64 = 0;
        for pair in self.turned(alloc, is_turned)?.iter() {
            if bounds.0 <= pair.0 && pair.0 <= bounds.1 {
                if offset <= place && (count < 0 || place < offset.saturating_add(count)) {
                    taken.push(*pair)?;
                }
                place = place.saturating_add(1);
            }
        }
        Ok(Owed::Pairs(taken))
    }

    fn changed(&mut self, alloc: Global, asked: Asked) -> Result<Owed, Fail> {
        Ok(match asked {
            Asked::Put(score, member) => {
                Owed::Number(usize::from(!self.set(member, Some(score))))
            }
            Asked::PutTwo(score, member, second, other) => {
                let first = !self.set(member, Some(score));
                Owed::Number(both(first, !self.set(other, Some(second))))
            }
            Asked::Raise(score, member) => Owed::Number(self.raise(member, score)),
            Asked::Bump(by, member) => {
                let sum = self.score(member).unwrap_or(0).saturating_add(by);
                self.set(member, Some(sum));
                Owed::Score(Some(sum))
            }
            Asked::Drop(member, other) => {
                let first = self.set(member, None);
                Owed::Number(both(first, self.set(other, None)))
            }
            Asked::Pop(count) => return self.pop(alloc, usize::try_from(count).unwrap_or(0)),
            Asked::PopNear => return self.pop(alloc, 1),
            _ => {
                let any = self.size() > 0;
                self.scores = [None; SIZE];
                Owed::Number(usize::from(any))
            }
        })
    }

    fn owed(&mut self, alloc: Global, asked: Asked) -> Result<Owed, Fail> {
        match asked {
            Asked::Ping => Ok(Owed::Simple("+PONG\r\n")),
            Asked::Score(member) => Ok(Owed::Score(self.score(member))),
            Asked::Size => Ok(Owed::Number(self.size())),
            Asked::Rank(member) => self.place(alloc, member, false),
            Asked::TurnedRank(member) => self.place(alloc, member, true),
            Asked::Within(above, most) => Ok(Owed::Number(self.within(above, most))),
            Asked::Places(start, stop, is_turned) => self.places(alloc, start, stop, is_turned),
            Asked::Scores(min, max, is_turned, offset, count) => {
                self.scores(alloc, (min, max), is_turned, offset, count)
            }
            change => self.changed(alloc, change),
        }
    }

    /// The bytes that are owed to a command, which changes the list as it says.
    pub fn answer(&mut self, alloc: Global, asked: Asked) -> Result<Vec<u8>, Fail> {
        let owed = self.owed(alloc, asked)?;
        let mut bytes = Vec::new(alloc);
        match owed {
            Owed::Simple(text) => bytes.extend_from_slice(text.as_bytes())?,
            Owed::Number(number) => {
                bytes.extend_from_slice(format!(in alloc; ":{number}\r\n")?.as_bytes())?;
            }
            Owed::Score(score) => write_score(alloc, &mut bytes, score)?,
            Owed::Pairs(pairs) => write_pairs(alloc, &mut bytes, &pairs)?,
        }
        Ok(bytes)
    }
}

/// How many of two are so.
fn both(first: bool, second: bool) -> usize {
    usize::from(first).saturating_add(usize::from(second))
}

fn as_number(count: usize) -> i64 {
    i64::try_from(count).unwrap_or(i64::MAX)
}

/// Writes a score as a text, and the null bulk where there is none.
fn write_score(alloc: Global, bytes: &mut Vec<u8>, score: Option<i64>) -> Result<(), Fail> {
    let Some(score) = score else {
        bytes.extend_from_slice(b"$-1\r\n")?;
        return Ok(());
    };
    let digits = format!(in alloc; "{score}")?;
    let length = digits.len();
    bytes.extend_from_slice(format!(in alloc; "${length}\r\n{digits}\r\n")?.as_bytes())?;
    Ok(())
}

/// Writes letters with their scores.
fn write_pairs(alloc: Global, bytes: &mut Vec<u8>, pairs: &[(i64, u8)]) -> Result<(), Fail> {
    let count = pairs.len().saturating_mul(2);
    bytes.extend_from_slice(format!(in alloc; "*{count}\r\n")?.as_bytes())?;
    for (score, letter) in pairs {
        bytes.extend_from_slice(b"$1\r\n")?;
        bytes.push(*letter)?;
        bytes.extend_from_slice(b"\r\n")?;
        write_score(alloc, bytes, Some(*score))?;
    }
    Ok(())
}
