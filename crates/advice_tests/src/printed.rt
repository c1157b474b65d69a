//! Programmes as words.
use adv_base::push_decimal;
use bip_model::{Grant, Part, Programme, SlotPart};
use plan_model::Template;
use std::alloc::Global;
use std::process::Abort;

/// A line of words, each with a blank behind it.
struct Line {
    alloc: Global,
    items: Vec<u8>,
}

impl Line {
    fn word(&mut self, rt: &impl Abort, word: &str) {
        self.items
            .extend_from_slice(word.as_bytes())
            .expect(rt, "memory");
        self.items.push(b' ').expect(rt, "memory");
    }

    fn number(&mut self, rt: &impl Abort, number: u128) {
        push_decimal(self.alloc, &mut self.items, number).expect(rt, "memory");
        self.items.push(b' ').expect(rt, "memory");
    }

    /// A price, or a dash where there is none.
    fn price(&mut self, rt: &impl Abort, price: Option<u64>) {
        match price {
            Some(price) => self.number(rt, price as u128),
            None => self.word(rt, "-"),
        }
    }

    fn prices(&mut self, rt: &impl Abort, prices: &[Option<u64>]) {
        for price in prices {
            self.price(rt, *price);
        }
    }

    fn grant(&mut self, rt: &impl Abort, grant: &Grant) {
        self.word(rt, "grant");
        self.number(rt, grant.candidate as u128);
        self.prices(rt, grant.prices.as_slice());
    }

    fn slot(&mut self, rt: &impl Abort, slot: &SlotPart) {
        self.word(rt, "slot");
        self.prices(rt, slot.base.as_slice());
        for grant in slot.grants.as_slice() {
            self.grant(rt, grant);
        }
    }

    /// What a template needs of so many slots, and its internal cost.
    fn template(&mut self, rt: &impl Abort, template: &Template, slots: usize) {
        self.word(rt, "template");
        for need in template.needs.iter().take(slots) {
            self.number(rt, *need as u128);
        }
        self.number(rt, template.internal);
    }

    fn part(&mut self, rt: &impl Abort, part: &Part) {
        self.word(rt, "part");
        self.number(rt, part.statement as u128);
        self.number(rt, part.weight as u128);
        for template in part.templates.as_slice() {
            self.template(rt, template, part.slots.len());
        }
        for slot in part.slots.as_slice() {
            self.slot(rt, slot);
        }
    }

    fn programme(&mut self, rt: &impl Abort, programme: &Programme) {
        self.word(rt, "sizes");
        for pages in programme.sizes.as_slice() {
            self.number(rt, *pages as u128);
        }
        self.word(rt, "upkeep");
        for upkeep in programme.upkeep.as_slice() {
            self.number(rt, *upkeep);
        }
        self.word(rt, "kept");
        self.number(rt, programme.kept);
        for part in programme.parts.as_slice() {
            self.part(rt, part);
        }
    }
}

/// The words of a programme: the pages and the upkeep of each candidate, the upkeep of what exists, and of each part the
/// statement's number and weight, the templates with what they need of each slot and their internal costs, and the slots
/// with what exists for each order and the grants.
pub(crate) fn words_of(rt: &impl Abort, alloc: Global, programme: &Programme) -> Vec<u8> {
    let mut line = Line {
        alloc,
        items: Vec::new(alloc),
    };
    line.programme(rt, programme);
    let Line { alloc: _, items } = line;
    items
}
