//! A line of the list: a case's name, its box, its file, and what each call returns.

use crate::run::Call;
use crate::trouble::Trouble;
use osm_entity::BoundingBox;
use pbf_frame::Stop;
use pbfcut::Counts;
use std::str::Split;

/// What a call counts and the file that it writes.
#[derive(Clone, Copy)]
pub(crate) struct Answer<'a> {
    pub(crate) counts: Counts,
    pub(crate) file: &'a str,
}

/// The place of a fault, the number of its reason, and the field of `Missing` or 0.
type Told = (u64, u32, u64);

/// What the calls should return.
#[derive(Clone, Copy)]
pub(crate) enum Wanted<'a> {
    /// The fault that each call refuses the file with.
    Refused(Told),
    /// The fault that each call which writes refuses it with, and what `check` counts.
    Unwritten(Told, Counts),
    /// What `convert`, `extract` and `extract_parents` write.
    Written(Answer<'a>, Answer<'a>, Answer<'a>),
}

/// A case.
#[derive(Clone, Copy)]
pub(crate) struct Row<'a> {
    pub(crate) name: &'a str,
    pub(crate) area: BoundingBox,
    pub(crate) input: &'a str,
    pub(crate) wanted: Wanted<'a>,
}

impl<'a> Row<'a> {
    /// The fault that the call refuses the file with, if it does.
    fn fault(&self, call: Call) -> Option<Told> {
        match (self.wanted, call) {
            (Wanted::Refused(fault), _) => Some(fault),
            (Wanted::Written(..), _) | (_, Call::Check) => None,
            (Wanted::Unwritten(fault, _), _) => Some(fault),
        }
    }

    /// What the call counts, if it doesn't refuse the file: `check` and `convert` count all entities.
    fn counts(&self, call: Call) -> Option<Counts> {
        match (self.wanted, call) {
            (Wanted::Refused(_), _) => None,
            (Wanted::Unwritten(_, counts), Call::Check) => Some(counts),
            (Wanted::Unwritten(..), _) => None,
            (Wanted::Written(converted, _, _), Call::Check | Call::Convert) => {
                Some(converted.counts)
            }
            (Wanted::Written(_, extracted, _), Call::Extract) => Some(extracted.counts),
            (Wanted::Written(_, _, with_parents), Call::ExtractParents) => {
                Some(with_parents.counts)
            }
        }
    }

    /// The file that the call writes, if it writes one.
    pub(crate) fn file(&self, call: Call) -> Option<&'a str> {
        match (self.wanted, call) {
            (Wanted::Refused(_) | Wanted::Unwritten(..), _) | (_, Call::Check) => None,
            (Wanted::Written(converted, _, _), Call::Convert) => Some(converted.file),
            (Wanted::Written(_, extracted, _), Call::Extract) => Some(extracted.file),
            (Wanted::Written(_, _, with_parents), Call::ExtractParents) => Some(with_parents.file),
        }
    }

    /// Whether this is what the call should return.
    pub(crate) fn is_answer(&self, call: Call, outcome: Result<Counts, Stop>) -> bool {
        match outcome {
            Ok(counts) => self.counts(call) == Some(counts),
            Err(Stop::Refused(fault)) => {
                let reason = fault.reason;
                self.fault(call) == Some((fault.offset, reason.number(), reason.missing_field()))
            }
            Err(_) => false,
        }
    }
}

/// The next word.
fn word<'a>(words: &mut Split<'a, char>) -> Result<&'a str, Trouble> {
    words.next().ok_or(Trouble::List)
}

fn whole(word: &str) -> Result<u64, Trouble> {
    let Ok(number) = word.parse::<u64>() else {
        return Err(Trouble::List);
    };
    Ok(number)
}

fn edge(word: &str) -> Result<i64, Trouble> {
    let Ok(number) = word.parse::<i64>() else {
        return Err(Trouble::List);
    };
    Ok(number)
}

/// The box, in the order left, bottom, right, top.
fn area_of(words: &mut Split<'_, char>) -> Result<BoundingBox, Trouble> {
    Ok(BoundingBox {
        left: edge(word(words)?)?,
        bottom: edge(word(words)?)?,
        right: edge(word(words)?)?,
        top: edge(word(words)?)?,
    })
}

/// The place and the reason of a fault.
fn told(words: &mut Split<'_, char>) -> Result<Told, Trouble> {
    let offset = whole(word(words)?)?;
    let Ok(number) = word(words)?.parse::<u32>() else {
        return Err(Trouble::List);
    };
    Ok((offset, number, whole(word(words)?)?))
}

/// Three counts, of which the first word is read already.
fn counts_of(nodes: &str, words: &mut Split<'_, char>) -> Result<Counts, Trouble> {
    Ok(Counts {
        nodes: whole(nodes)?,
        ways: whole(word(words)?)?,
        relations: whole(word(words)?)?,
    })
}

/// Counts, of which the first word is read already, and a file.
fn counted<'a>(nodes: &str, words: &mut Split<'a, char>) -> Result<Answer<'a>, Trouble> {
    let counts = counts_of(nodes, words)?;
    Ok(Answer {
        counts,
        file: word(words)?,
    })
}

/// The case of a line.
pub(crate) fn row_of(line: &str) -> Result<Row<'_>, Trouble> {
    let mut words = line.split(' ');
    let name = word(&mut words)?;
    let area = area_of(&mut words)?;
    let input = word(&mut words)?;
    let next = word(&mut words)?;
    let wanted = if next == "refused" {
        Wanted::Refused(told(&mut words)?)
    } else if next == "unwritten" {
        let fault = told(&mut words)?;
        Wanted::Unwritten(fault, counts_of(word(&mut words)?, &mut words)?)
    } else {
        let converted = counted(next, &mut words)?;
        let extracted = counted(word(&mut words)?, &mut words)?;
        let with_parents = counted(word(&mut words)?, &mut words)?;
        Wanted::Written(converted, extracted, with_parents)
    };
    if words.next().is_some() {
        return Err(Trouble::List);
    }
    Ok(Row {
        name,
        area,
        input,
        wanted,
    })
}
