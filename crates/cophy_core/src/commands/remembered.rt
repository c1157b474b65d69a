//! What is remembered of the last advice of a script, so that the next search can look at it first. Nothing rests on it.

use adv_base::{IndexShape, NoMemory};
use bip_model::{Part, Programme};
use branch_bound::{Earlier, NewNumbers};
use edit_script::Edit;
use report::Tuned;
use retune::is_same_shape;
use std::alloc::Global;

/// In place of a grant that wasn't there.
const NOWHERE: u32 = u32::MAX;

/// A grant: the number of its statement, its slot, and the number of its candidate.
#[derive(Clone, Copy)]
struct Mark {
    statement: u16,
    slot: u16,
    candidate: u16,
}

/// The grants of the programme that was searched last, in the order in which multipliers have their rents, and the number that
/// each of its statements has now, from 1: 0 where it has gone.
#[derive(Drop)]
pub(crate) struct Remembered {
    marks: Vec<Mark>,
    statements: Vec<u16>,
}

/// A small number as it is kept.
fn short(number: usize) -> u16 {
    number.min(65535) as u16
}

/// A place as it is kept.
fn place_of(at: usize) -> u32 {
    at.min(NOWHERE as usize) as u32
}

/// The number of a shape among others, from 1; 0 where it isn't there.
fn number_among(shapes: &[IndexShape], shape: &IndexShape) -> u16 {
    for (at, other) in shapes.iter().enumerate() {
        if is_same_shape(other, shape) {
            return at.wrapping_add(1).min(256) as u16;
        }
    }
    0
}

/// The numbers that candidates have now, by those that they had where something was told last.
pub(crate) fn numbers_now(last: Option<&Tuned>, now: &[IndexShape]) -> NewNumbers {
    let mut numbers = [0; 257];
    if let Some(last) = last {
        for (number, shape) in numbers.iter_mut().skip(1).zip(last.shapes.as_slice()) {
            *number = number_among(now, shape);
        }
    }
    numbers
}

/// The answer that was told last, where its candidates have these numbers and its rents stand at these places.
pub(crate) fn earlier_of<'a>(
    last: Option<&'a Tuned>,
    numbers: &'a NewNumbers,
    places: &'a [u32],
) -> Option<Earlier<'a>> {
    match last {
        None => None,
        Some(last) => Some(Earlier {
            answer: &last.advice.answer,
            numbers,
            places,
        }),
    }
}

/// Puts the grants of a part at the end.
fn put_marks(part: &Part, marks: &mut Vec<Mark>) -> Result<(), NoMemory> {
    for (slot, own) in part.slots.as_slice().iter().enumerate() {
        for grant in own.grants.as_slice() {
            marks.push(Mark {
                statement: part.statement,
                slot: short(slot),
                candidate: grant.candidate,
            })?;
        }
    }
    Ok(())
}

impl Remembered {
    /// Nothing.
    pub(crate) fn nothing(alloc: Global) -> Remembered {
        Remembered {
            marks: Vec::new(alloc),
            statements: Vec::new(alloc),
        }
    }

    /// The grants of a programme of so many statements.
    pub(crate) fn of(
        alloc: Global,
        programme: &Programme,
        count: usize,
    ) -> Result<Remembered, NoMemory> {
        let mut marks = Vec::new(alloc);
        for part in programme.parts.as_slice() {
            put_marks(part, &mut marks)?;
        }
        let mut statements = Vec::with_capacity(alloc, count)?;
        for number in 0..count {
            statements.push(short(number.wrapping_add(1)))?;
        }
        Ok(Remembered { marks, statements })
    }

    /// Follows an edit that was taken.
    pub(crate) fn follow(&mut self, edit: Edit<'_>) {
        match edit {
            Edit::Remove(number) => {
                for own in self.statements.iter_mut() {
                    if *own as u32 == number {
                        *own = 0;
                    } else if *own as u32 > number {
                        *own = own.wrapping_sub(1);
                    }
                }
            }
            _ => (),
        }
    }

    /// The number that a statement had, from 1, by the one that it has now; 0 where it wasn't there.
    fn number_before(&self, statement: u16) -> u16 {
        for (place, own) in self.statements.iter().enumerate() {
            if *own == statement {
                return short(place.wrapping_add(1));
            }
        }
        0
    }

    /// From where on each statement's grants were put.
    fn firsts(&self, alloc: Global) -> Result<Vec<u32>, NoMemory> {
        let mut firsts = Vec::with_capacity(alloc, self.statements.len())?;
        let mut at = 0;
        for place in 0..self.statements.len() {
            let number = short(place.wrapping_add(1));
            firsts.push(place_of(at))?;
            for next in at..self.marks.len() {
                if self.marks[next].statement != number {
                    break;
                }
                at = next.wrapping_add(1);
            }
        }
        Ok(firsts)
    }

    /// The place of a grant, among those that were put from a place on for a statement of a number.
    fn place(&self, from: usize, mark: Mark, numbers: &NewNumbers) -> u32 {
        for at in from..self.marks.len() {
            let own = self.marks[at];
            if own.statement != mark.statement {
                break;
            }
            if own.slot == mark.slot
                && own.candidate < 257
                && numbers[own.candidate as usize] == mark.candidate
            {
                return place_of(at);
            }
        }
        NOWHERE
    }

    /// Where each grant of a programme was, whose candidates have these numbers by those that they had.
    pub(crate) fn places(
        &self,
        alloc: Global,
        programme: &Programme,
        numbers: &NewNumbers,
    ) -> Result<Vec<u32>, NoMemory> {
        let firsts = self.firsts(alloc)?;
        let mut places = Vec::new(alloc);
        for part in programme.parts.as_slice() {
            let statement = self.number_before(part.statement);
            let first = (statement as usize).wrapping_sub(1);
            let from = match firsts.get(first) {
                Some(from) => *from as usize,
                None => self.marks.len(),
            };
            for (slot, own) in part.slots.as_slice().iter().enumerate() {
                for grant in own.grants.as_slice() {
                    let mark = Mark {
                        statement,
                        slot: short(slot),
                        candidate: grant.candidate,
                    };
                    places.push(self.place(from, mark, numbers))?;
                }
            }
        }
        Ok(places)
    }
}
