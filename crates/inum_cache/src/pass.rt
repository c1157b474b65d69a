//! The templates of all sets of slots, found in one pass from smaller sets to larger ones.
ghost use Rattle.std.specs.Prelude.{◌≡◌, ℕ, ◌+◌, ◌<◌, ◌≤◌, [], All, IfOk, OnOk, length};
ghost use Rattle.std.specs.List.{list_all};
ghost use Rattle.plan_model.specs.Plans.{is_column_of};
ghost use Rattle.planner.specs.Cuts.{is_covered};
ghost use Rattle.planner.specs.Fronts.{begins_test, head_at};
ghost use Rattle.planner.specs.Rows as set_rows;
ghost use Rattle.inum_cache.specs.Numbering.{order_in};
ghost use Rattle.inum_cache.specs.inner.Cells as cells;
ghost use Rattle.inum_cache.specs.inner.Passes as passes;

use crate::cell::{Hints, insert, join_each, raise_each};
use crate::choices::Choices;
use adv_base::{Item, List, NoMemory};
use plan_model::{Template, rows_of, sort_price};
use planner::{Cut, Merge, Ways, can_sort, cuts_at, longer, merges_at, serves};
use std::alloc::Global;

/// What is known of a task before any offer, and the orders of its slots.
#[derive(Drop)]
pub(crate) struct Pass<'a> {
    pub ways: Ways<'a>,
    pub choices: &'a Choices,
    pub ghost slots: { length choices.now.orders ≡ ways.task.now.slots },
}

/// The list of a front in a row.
pub(crate) fn cell_at(row: &[List<Template>], front: usize) -> &[Template]
    ensures { result.now ≡ passes.cell_in row.now front }
{
    match row.get(front) {
        None => &[],
        Some(cell) => cell.as_slice(),
    }
}

/// The row of a set.
pub(crate) fn row_at(rows: &[List<List<Template>>], set: usize) -> &[List<Template>]
    ensures { result.now ≡ passes.row_in rows.now set }
{
    match rows.get(set) {
        None => &[],
        Some(row) => row.as_slice(),
    }
}

/// The list of a set and a front.
fn list_at(rows: &[List<List<Template>>], set: usize, front: usize) -> &[Template]
    ensures { result.now ≡ passes.cell_in (passes.row_in rows.now set) front }
{
    cell_at(row_at(rows, set), front)
}

/// The template of a leaf that reads a slot in the order at a place.
fn leaf(slot: u8, place: u8) -> Template
    requires { slot < 8 }
    ensures { passes.IsLeaf slot place result }
{
    let mut needs = [0; 8];
    needs[slot as usize] = place;
    Template { internal: 0, needs }
}

impl Pass<'_> {
    /// The first item of what a front asks for.
    fn head(&self, front: usize) -> Option<Item>
        ensures { result ≡ head_at self.now.ways.heads.items front }
    {
        match self.ways.heads.as_slice().get(front) {
            None => None,
            Some(head) => *head,
        }
    }

    /// Whether a slot's order at a place serves a front.
    fn serves_at(&self, slot: u8, place: u8, front: usize) -> bool
        requires { front < set_rows.width self.now.ways }
        ensures { result ≡ begins_test (order_in self.now.choices.now.orders slot place) (set_rows.order_of self.now.ways front) }
    {
        serves(
            self.choices.order(slot, place),
            self.ways.fronts.as_slice()[front],
            self.ways.task.wanted_list(),
        )
    }

    /// Gives a list the leaf that reads a slot in the order at a place, where that serves the front.
    fn read_place(
        &self,
        hints: &mut Hints,
        cell: &mut Vec<Template>,
        front: usize,
        slot: u8,
        place: u8,
    ) -> Result<(), NoMemory>
        requires front_in { front < set_rows.width self.now.ways }
        requires slot_in { slot < 8 }
        ensures { OnOk result (cells.Takes self.now.choices.now.orders (passes.PlaceGives self.now.ways self.now.choices.now.orders front slot place) cell.old.items cell.new.items) }
    {
        if !self.serves_at(slot, place, front) {
            return Ok(());
        }
        insert(self.choices, hints, cell, leaf(slot, place))?;
        Ok(())
    }

    /// Gives it all leaves that read a slot, where the set has that slot alone.
    fn read_slot(
        &self,
        hints: &mut Hints,
        cell: &mut Vec<Template>,
        set: usize,
        front: usize,
        slot: u8,
    ) -> Result<(), NoMemory>
        requires front_in { front < set_rows.width self.now.ways }
        requires slot_in { slot < self.now.ways.task.now.slots }
        ensures { OnOk result (cells.Takes self.now.choices.now.orders (passes.SlotGives self.now.ways self.now.choices.now.orders set front slot) cell.old.items cell.new.items) }
    {
        if 1 << slot != set {
            return Ok(());
        }
        for place in 0..self.choices.size(slot) as u8 {
            self.read_place(hints, cell, front, slot, place)?;
        }
        Ok(())
    }

    /// Gives it all leaves of a set of one slot.
    fn read(
        &self,
        hints: &mut Hints,
        cell: &mut Vec<Template>,
        set: usize,
        front: usize,
    ) -> Result<(), NoMemory>
        requires { front < set_rows.width self.now.ways }
        ensures { OnOk result (cells.Takes self.now.choices.now.orders (passes.ReadGives self.now.ways self.now.choices.now.orders set front) cell.old.items cell.new.items) }
    {
        for slot in 0..self.ways.task.slots {
            self.read_slot(hints, cell, set, front, slot)?;
        }
        Ok(())
    }

    /// Gives it the hash joins of a cut's parts, where the front asks nothing.
    fn join_hash(
        &self,
        hints: &mut Hints,
        cell: &mut Vec<Template>,
        rows: &[List<List<Template>>],
        front: usize,
        cut: &Cut,
    ) -> Result<(), NoMemory>
        requires small { (s f : ℕ) → All cells.IsSmall (passes.cell_in (passes.row_in rows.now s) f) }
        requires price { cut.now.hash_price ≤ 100000000000000000000000 }
        ensures { OnOk result (cells.Takes self.now.choices.now.orders (passes.HashGives self.now.ways (passes.row_in rows.now) front cut.now) cell.old.items cell.new.items) }
    {
        match self.head(front) {
            Some(_) => Ok(()),
            None => {
                let left = list_at(rows, cut.left, 0);
                let right = list_at(rows, cut.right, 0);
                join_each(self.choices, hints, cell, left, right, cut.hash_price)?;
                Ok(())
            }
        }
    }

    /// Gives it a merge of a cut's parts, where some order begins as the merge and the front ask.
    fn join_merge(
        &self,
        hints: &mut Hints,
        cell: &mut Vec<Template>,
        rows: &[List<List<Template>>],
        front: usize,
        cut: &Cut,
        merge: &Merge,
    ) -> Result<(), NoMemory>
        requires small { (s f : ℕ) → All cells.IsSmall (passes.cell_in (passes.row_in rows.now s) f) }
        requires price { cut.now.merge_price ≤ 100000000000000000000000 }
        ensures { OnOk result (cells.Takes self.now.choices.now.orders (passes.MergeGives self.now.ways (passes.row_in rows.now) front cut.now merge.now) cell.old.items cell.new.items) }
    {
        let need = self.head(merge.left_need);
        let head = self.head(front);
        match longer(need, head, merge.left_need, front) {
            None => Ok(()),
            Some(left_front) => {
                let left = list_at(rows, cut.left, left_front);
                let right = list_at(rows, cut.right, merge.right_front);
                join_each(self.choices, hints, cell, left, right, cut.merge_price)?;
                Ok(())
            }
        }
    }

    /// Gives it all merges of a cut's parts.
    fn join_merges(
        &self,
        hints: &mut Hints,
        cell: &mut Vec<Template>,
        rows: &[List<List<Template>>],
        front: usize,
        cut: &Cut,
    ) -> Result<(), NoMemory>
        requires small { (s f : ℕ) → All cells.IsSmall (passes.cell_in (passes.row_in rows.now s) f) }
        requires price { cut.now.merge_price ≤ 100000000000000000000000 }
        requires from { cut.now.from ≤ cut.now.to }
        requires to { cut.now.to ≤ length self.now.ways.merges.items }
        ensures { OnOk result (cells.Takes self.now.choices.now.orders (passes.MergesGive self.now.ways (passes.row_in rows.now) front cut.now (set_rows.merges_in self.now.ways cut.now)) cell.old.items cell.new.items) }
    {
        let merges = merges_at(&self.ways, cut);
        for merge in merges {
            self.join_merge(hints, cell, rows, front, cut, merge)?;
        }
        Ok(())
    }

    /// Gives it all joins of a cut's parts.
    fn join_cut(
        &self,
        hints: &mut Hints,
        cell: &mut Vec<Template>,
        rows: &[List<List<Template>>],
        front: usize,
        cut: &Cut,
    ) -> Result<(), NoMemory>
        requires small { (s f : ℕ) → All cells.IsSmall (passes.cell_in (passes.row_in rows.now s) f) }
        requires hash_price { cut.now.hash_price ≤ 100000000000000000000000 }
        requires merge_price { cut.now.merge_price ≤ 100000000000000000000000 }
        requires from { cut.now.from ≤ cut.now.to }
        requires to { cut.now.to ≤ length self.now.ways.merges.items }
        ensures { OnOk result (cells.Takes self.now.choices.now.orders (passes.CutGives self.now.ways (passes.row_in rows.now) front cut.now) cell.old.items cell.new.items) }
    {
        self.join_hash(hints, cell, rows, front, cut)?;
        self.join_merges(hints, cell, rows, front, cut)?;
        Ok(())
    }

    /// Gives it all joins of a set's parts.
    fn join(
        &self,
        hints: &mut Hints,
        cell: &mut Vec<Template>,
        rows: &[List<List<Template>>],
        set: usize,
        front: usize,
    ) -> Result<(), NoMemory>
        requires small { (s f : ℕ) → All cells.IsSmall (passes.cell_in (passes.row_in rows.now s) f) }
        requires set_in { set < set_rows.sets_of self.now.ways }
        ensures { OnOk result (cells.Takes self.now.choices.now.orders (passes.CutsGive self.now.ways (passes.row_in rows.now) front (set_rows.cuts_of self.now.ways set)) cell.old.items cell.new.items) }
    {
        let cuts = cuts_at(&self.ways, set);
        for cut in cuts {
            self.join_cut(hints, cell, rows, front, cut)?;
        }
        Ok(())
    }

    /// Whether a set can be sorted by what a front asks for.
    fn can_sort(&self, set: usize, front: usize) -> bool
        requires { front < set_rows.width self.now.ways }
        ensures { result ≡ list_all (is_column_of set) (set_rows.order_of self.now.ways front) }
    {
        can_sort(
            set,
            self.ways.fronts.as_slice()[front],
            self.ways.task.wanted_list(),
        )
    }

    /// Gives it sorts of what serves no order, where the front asks for something that the set can be sorted by.
    fn sort(
        &self,
        hints: &mut Hints,
        cell: &mut Vec<Template>,
        input: &[Template],
        set: usize,
        front: usize,
    ) -> Result<(), NoMemory>
        requires set_in { set < set_rows.sets_of self.now.ways }
        requires front_in { front < set_rows.width self.now.ways }
        requires small { 0 < front → All cells.IsSmall input.now }
        ensures { OnOk result (cells.Takes self.now.choices.now.orders (passes.SortGives self.now.ways set front input.now) cell.old.items cell.new.items) }
    {
        if front == 0 {
            return Ok(());
        }
        if !self.can_sort(set, front) {
            return Ok(());
        }
        let task = self.ways.task;
        let price = sort_price(task, rows_of(task, set));
        raise_each(self.choices, hints, cell, input, price)?;
        Ok(())
    }

    /// The list of a set and a front; `input` is the set's list for no order.
    fn cell_of(
        &self,
        alloc: Global,
        hints: &mut Hints,
        rows: &[List<List<Template>>],
        input: &[Template],
        set: usize,
        front: usize,
    ) -> Result<List<Template>, NoMemory>
        requires set_in { set < set_rows.sets_of self.now.ways }
        requires front_in { front < set_rows.width self.now.ways }
        requires count { length rows.now ≡ set }
        requires done { passes.AreRowsOf self.now.ways self.now.choices.now.orders rows.now set }
        requires input { 0 < front → All (passes.IsFor self.now.ways self.now.choices.now.orders set 0) input.now }
        ensures takes { IfOk result (λ cell. cells.Takes self.now.choices.now.orders (passes.IsGiven self.now.ways self.now.choices.now.orders (passes.row_in rows.now) input.now set front) [] cell) }
        ensures plans { IfOk result (λ cell. All (passes.IsFor self.now.ways self.now.choices.now.orders set front) cell) }
    {
        let mut cell = Vec::new(alloc);
        self.sort(hints, &mut cell, input, set, front)?;
        self.read(hints, &mut cell, set, front)?;
        self.join(hints, &mut cell, rows, set, front)?;
        Ok(List { items: cell })
    }

    /// Whether plans can cover a set.
    fn is_covered(&self, set: usize) -> bool
        requires { set < set_rows.sets_of self.now.ways }
        ensures { result ≡ is_covered self.now.ways.covered.items set }
    {
        self.ways.covered.as_slice()[set]
    }

    /// The row of a set.
    fn row_of(
        &self,
        alloc: Global,
        hints: &mut Hints,
        rows: &[List<List<Template>>],
        set: usize,
    ) -> Result<List<List<Template>>, NoMemory>
        requires set_in { set < set_rows.sets_of self.now.ways }
        requires count { length rows.now ≡ set }
        requires done { passes.AreRowsOf self.now.ways self.now.choices.now.orders rows.now set }
        ensures { IfOk result (λ row. passes.IsRowOf self.now.ways self.now.choices.now.orders (passes.row_in rows.now) set row) }
    {
        let mut row = Vec::new(alloc);
        if !self.is_covered(set) {
            return Ok(List { items: row });
        }
        let first = self.cell_of(alloc, hints, rows, &[], set, 0)?;
        row.push(first)?;
        for front in 1..self.ways.fronts.len() {
            let input = cell_at(row.as_slice(), 0);
            let cell = self.cell_of(alloc, hints, rows, input, set, front)?;
            row.push(cell)?;
        }
        Ok(List { items: row })
    }

    /// The rows of all sets.
    pub(crate) fn rows(
        &self,
        alloc: Global,
        hints: &mut Hints,
    ) -> Result<List<List<List<Template>>>, NoMemory>
        ensures count { IfOk result (λ rows. length rows ≡ set_rows.sets_of self.now.ways) }
        ensures done { IfOk result (λ rows. passes.AreRowsOf self.now.ways self.now.choices.now.orders rows (set_rows.sets_of self.now.ways)) }
    {
        let mut rows = Vec::new(alloc);
        for set in 0..self.ways.task.rows.len() {
            let row = self.row_of(alloc, hints, rows.as_slice(), set)?;
            rows.push(row)?;
        }
        Ok(List { items: rows })
    }
}
