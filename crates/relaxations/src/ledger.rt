//! Sets of multipliers in whole numbers, and what each says along a path: only what a step changes is found anew.

use crate::least_plans::{
    LeastPlan, NO_LOSSES, NO_PLAN, NO_ROW, PlanLosses, RowPrice, Usable, shade,
};
use crate::path::{MOST_STEPS, Path};
use adv_base::NoMemory;
use bip_model::State;
use interior_point::{Matrix, MatrixPart, at, float_of, put};
use std::alloc::Global;
use std::num::nearest_i64_to_f64;

/// A number for each candidate, in parts of 65536.
pub(crate) type Each = [i128; 256];

/// What a part's plan was before a step.
#[derive(Clone, Copy)]
struct Note {
    part: usize,
    plan: LeastPlan,
}

/// What the value was before a step, and how many notes there were.
#[derive(Clone, Copy)]
struct Stage {
    value: i128,
    notes: usize,
}

/// A set of multipliers: the rents by link of the matrix, and the price of a page in parts of 65536. `terms` has what each
/// candidate costs beyond its rents, and `shares` how much of it the relaxation takes from which the set comes. The rest
/// is what it says at the end of a path, as far as that was looked at: the Lagrangian value in parts of 65536, which
/// candidates may be used, and the parts' least plans and losses. Where there is no room for notes, no step from `lost_at`
/// on is looked at.
#[derive(Drop)]
pub(crate) struct Ledger {
    pub rents: Vec<i64>,
    pub page: i128,
    pub terms: Each,
    pub shares: [f64; 256],
    /// How many rents aren't 0.
    pub entries: usize,
    value: i128,
    usable: [bool; 256],
    plans: Vec<LeastPlan>,
    losses: Vec<PlanLosses>,
    rows: Vec<RowPrice>,
    notes: Vec<Note>,
    most_notes: usize,
    stages: Vec<Stage>,
    lost_at: usize,
}

/// The most rows of a part.
fn most_rows(matrix: &Matrix) -> usize {
    let mut most = 0;
    for part in matrix.parts.iter() {
        most = part.rows.count().max(most);
    }
    most
}

/// A cost of a part in all, in parts of 65536.
fn weighted(part: &MatrixPart, cost: i64) -> i128 {
    (cost as i128)
        .wrapping_mul(part.weight as i128)
        .wrapping_mul(65536)
}

/// Forgets the losses of a part.
fn forget(losses: &mut [PlanLosses], place: usize) {
    if place < losses.len() {
        losses[place].is_known = false;
    }
}

impl Ledger {
    /// All memory of a set. Want of memory is the one error.
    pub(crate) fn new(alloc: Global, matrix: &Matrix) -> Result<Ledger, NoMemory> {
        let parts = matrix.parts.len();
        let most_notes = parts.saturating_mul(8).saturating_add(1024);
        Ok(Ledger {
            rents: vec![in alloc; 0; matrix.links.len()]?,
            page: 0,
            terms: [0; 256],
            shares: [0.0; 256],
            entries: 0,
            value: 0,
            usable: [false; 256],
            plans: vec![in alloc; NO_PLAN; parts]?,
            losses: vec![in alloc; NO_LOSSES; parts]?,
            rows: vec![in alloc; NO_ROW; most_rows(matrix)]?,
            notes: Vec::with_capacity(alloc, most_notes)?,
            most_notes,
            stages: Vec::with_capacity(alloc, MOST_STEPS)?,
            lost_at: usize::MAX,
        })
    }

    /// Writes what each candidate costs beyond its rents.
    fn write_terms(&mut self, matrix: &Matrix) {
        for a in 0..256 {
            let pages = self.page.wrapping_mul(matrix.sizes[a] as i128);
            self.terms[a] = matrix.upkeep[a].wrapping_mul(65536).wrapping_add(pages);
        }
        self.entries = 0;
        for (link, rent) in matrix.links.iter().zip(self.rents.iter()) {
            let place = link.part as usize;
            if *rent > 0 && place < matrix.parts.len() {
                self.entries = self.entries.saturating_add(1);
                let earned = weighted(&matrix.parts[place], *rent);
                let a = link.candidate as usize;
                self.terms[a] = self.terms[a].wrapping_sub(earned);
            }
        }
    }

    /// Chooses the price of a page anew that makes the value at the root of a path the greatest.
    pub(crate) fn price(&mut self, matrix: &Matrix, path: &Path) {
        self.page = 0;
        self.write_terms(matrix);
        let mut taken = [false; 256];
        let mut left = path.room;
        for _turn in 0..256 {
            let Some(candidate) = self.most_earning(matrix, path, &taken) else {
                return;
            };
            let a = candidate as usize;
            taken[a] = true;
            left = left.saturating_sub(matrix.sizes[a]);
            if left < 0 {
                let size = matrix.sizes[a].max(1) as i128;
                self.page = 0i128.wrapping_sub(self.terms[a]).max(0) / size;
                return;
            }
        }
    }

    /// The open candidate at the root of a path that earns most a page, but for some.
    fn most_earning(&self, matrix: &Matrix, path: &Path, taken: &[bool; 256]) -> Option<u8> {
        let mut best = None;
        let mut most = 0.0;
        for a in 0..256 {
            if self.terms[a] < 0 && !taken[a] && path.root.state[a] == State::Free {
                let pages = nearest_i64_to_f64(matrix.sizes[a].max(1));
                let rate = 0.0 - float_of(self.terms[a]) / pages;
                if rate > most {
                    most = rate;
                    best = Some((a & 255) as u8);
                }
            }
        }
        best
    }

    /// Goes to the root of a path, once rents and the price of a page are written.
    pub(crate) fn open(&mut self, matrix: &Matrix, path: &Path, budget: i64) {
        self.write_terms(matrix);
        self.stages.clear();
        self.notes.clear();
        self.lost_at = usize::MAX;
        self.value = matrix.kept.wrapping_mul(65536);
        self.value = self
            .value
            .wrapping_sub(self.page.wrapping_mul(budget as i128));
        for a in 0..256 {
            let (is_usable, term) = match path.root.state[a] {
                State::In => (true, self.terms[a]),
                State::Free => (true, self.terms[a].min(0)),
                State::Out => (false, 0),
            };
            self.usable[a] = is_usable;
            self.value = self.value.wrapping_add(term);
        }
        for place in 0..matrix.parts.len() {
            let plan = self.plan(matrix, place);
            put(self.plans.as_mut_slice(), place, plan);
            self.value = self
                .value
                .wrapping_add(weighted(&matrix.parts[place], plan.cost));
        }
        for losses in self.losses.iter_mut() {
            losses.is_known = false;
        }
    }

    /// The least plan of a part.
    fn plan(&mut self, matrix: &Matrix, place: usize) -> LeastPlan {
        if place >= matrix.parts.len() {
            return NO_PLAN;
        }
        let usable = Usable {
            matrix,
            on: &self.usable,
            rents: self.rents.as_slice(),
        };
        usable.plan(&matrix.parts[place], self.rows.as_mut_slice())
    }

    /// Notes the plan of a part; whether there was room.
    fn note(&mut self, place: usize) -> bool {
        if self.notes.len() >= self.most_notes {
            return false;
        }
        let plan = at(self.plans.as_slice(), place, NO_PLAN);
        let _ = self.notes.push(Note { part: place, plan });
        true
    }

    /// Finds the plan of a part anew.
    fn replan(&mut self, matrix: &Matrix, place: usize) {
        if place >= matrix.parts.len() {
            return;
        }
        if !self.note(place) {
            self.lost_at = self.lost_at.min(self.stages.len());
            return;
        }
        let before = at(self.plans.as_slice(), place, NO_PLAN);
        let plan = self.plan(matrix, place);
        let more = plan.cost.saturating_sub(before.cost);
        self.value = self
            .value
            .wrapping_add(weighted(&matrix.parts[place], more));
        put(self.plans.as_mut_slice(), place, plan);
        forget(self.losses.as_mut_slice(), place);
    }

    /// Finds the plans of parts anew that rest on a candidate.
    fn replan_all(&mut self, matrix: &Matrix, candidate: u8) {
        let own = shade(candidate as u16);
        for place in matrix.touches[candidate as usize].of(matrix.touched.as_slice()) {
            let part = *place as usize;
            if at(self.plans.as_slice(), part, NO_PLAN).shades & own != 0 {
                self.replan(matrix, part);
            }
        }
    }

    /// Looks at the step of a number.
    fn follow(&mut self, matrix: &Matrix, path: &Path, number: usize) {
        let _ = self.stages.push(Stage {
            value: self.value,
            notes: self.notes.len(),
        });
        let step = path.step(number);
        if step.is_inside {
            let term = self.terms[step.candidate as usize].max(0);
            self.value = self.value.wrapping_add(term);
        }
        for a in path.gone(&step) {
            self.usable[*a as usize] = false;
            let term = self.terms[*a as usize].min(0);
            self.value = self.value.wrapping_sub(term);
        }
        if self.lost_at == usize::MAX {
            for a in path.gone(&step) {
                self.replan_all(matrix, *a);
            }
        }
    }

    /// The Lagrangian value at the end of a path, in parts of 65536.
    pub(crate) fn value(&mut self, matrix: &Matrix, path: &Path) -> i128 {
        for number in self.stages.len()..path.depth() {
            self.follow(matrix, path, number);
        }
        if self.lost_at == usize::MAX {
            self.value
        } else {
            i128::MIN / 4
        }
    }

    /// Goes back a step, which the path still has.
    fn go_back_once(&mut self, path: &Path) {
        let Some(stage) = self.stages.pop() else {
            return;
        };
        let step = path.step(self.stages.len());
        for a in path.gone(&step) {
            self.usable[*a as usize] = true;
        }
        for _note in stage.notes..self.notes.len() {
            if let Some(note) = self.notes.pop() {
                put(self.plans.as_mut_slice(), note.part, note.plan);
                forget(self.losses.as_mut_slice(), note.part);
            }
        }
        self.value = stage.value;
        if self.stages.len() < self.lost_at {
            self.lost_at = usize::MAX;
        }
    }

    /// Goes back to so many steps of a path that still has the others.
    pub(crate) fn go_back(&mut self, path: &Path, depth: usize) {
        for _step in depth..self.stages.len() {
            self.go_back_once(path);
        }
    }

    /// Finds what a part loses without candidates.
    fn learn(&mut self, matrix: &Matrix, place: usize) -> PlanLosses {
        if place >= matrix.parts.len() {
            return NO_LOSSES;
        }
        let usable = Usable {
            matrix,
            on: &self.usable,
            rents: self.rents.as_slice(),
        };
        let (losses, shades) = usable.losses(&matrix.parts[place], self.rows.as_mut_slice());
        if self.note(place) {
            let cost = at(self.plans.as_slice(), place, NO_PLAN).cost;
            put(self.plans.as_mut_slice(), place, LeastPlan { cost, shades });
            put(self.losses.as_mut_slice(), place, losses);
        }
        losses
    }

    /// Writes by how much the value rises at least where each candidate is left out, at the end of a path to which the
    /// value was found.
    pub(crate) fn write_losses(&mut self, matrix: &Matrix, into: &mut Each) {
        for a in 0..256 {
            into[a] = 0i128.wrapping_sub(self.terms[a].min(0));
        }
        for place in 0..matrix.parts.len() {
            let mut losses = at(self.losses.as_slice(), place, NO_LOSSES);
            if !losses.is_known {
                losses = self.learn(matrix, place);
            }
            for i in 0..losses.count.min(8) {
                let a = losses.candidates[i] as usize;
                let more = weighted(&matrix.parts[place], losses.amounts[i]);
                into[a] = into[a].wrapping_add(more);
            }
        }
    }
}
