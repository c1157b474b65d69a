//! Groups of alike statements.
ghost use Rattle.std.specs.Prelude.{◌≡◌, ◌<◌, ◌≤◌, ◌+◌, ◌++◌, ◌∷◌, [], All, IfOk, OnOk, length, map, set, get_or, ℕ};
ghost use Rattle.adv_base.specs.declared.catalogue.Catalogue.{Catalogue};
ghost use Rattle.adv_base.specs.declared.limits.TheConstants.{MOST_STATEMENTS, MOST_WEIGHT};
ghost use Rattle.adv_base.specs.Named.{NamesWork};
ghost use Rattle.workload_fold.specs.Alike.{is_alike};
ghost use Rattle.workload_fold.specs.Groups as folding;
ghost use Rattle.workload_fold.specs.inner.Digests.{digest_of};
ghost use Rattle.workload_fold.specs.inner.Gathering.{IsKept, plain_group, plain_groups, place_from};

use crate::digests::digest;
use crate::folded::Folded;
use crate::gathered::Gathered;
use crate::sameness::alike;
use adv_base::limits::MOST_WEIGHT;
use adv_base::{Catalogue, List, NoMemory, Statement};
use std::alloc::{AllocError, Global};

/// Whether a statement is alike to a group's first. Most that aren't have other digests.
#[tactic(auto, using(crate::proofs::Digesting::told_apart))]
fn is_alike(cat: &Catalogue, group: &Gathered<'_>, statement: &Statement, digest: u64) -> bool
    requires kept { IsKept cat.now group.now }
    requires named { NamesWork cat.now statement.now.work }
    requires told { digest ≡ digest_of cat.now statement.now.work }
    ensures { result ≡ is_alike cat.now group.now.first.now.work statement.now.work }
{
    let differs = group.digest != digest;
    if differs {
        return false;
    }
    alike(cat, group.first, statement)
}

/// Whether a group has room for a statement and its first statement is alike.
fn takes(cat: &Catalogue, group: &Gathered<'_>, statement: &Statement, digest: u64) -> bool
    requires kept { IsKept cat.now group.now }
    requires named { NamesWork cat.now statement.now.work }
    requires told { digest ≡ digest_of cat.now statement.now.work }
    ensures { result ≡ folding.takes cat.now statement.now (plain_group group.now) }
{
    group.weight + statement.weight <= MOST_WEIGHT && is_alike(cat, group, statement, digest)
}

/// The place of the first group that takes a statement; as many as there are where none does.
fn place(cat: &Catalogue, groups: &[Gathered<'_>], statement: &Statement, digest: u64) -> usize
    requires kept { All (IsKept cat.now) groups.now }
    requires named { NamesWork cat.now statement.now.work }
    requires told { digest ≡ digest_of cat.now statement.now.work }
    ensures { result ≡ place_from cat.now statement.now 0 groups.now }
{
    'places: for at in 0..groups.len() {
        if takes(cat, &groups[at], statement, digest) {
            return at;
        }
    }
    groups.len()
}

/// A group with a statement's weight.
fn grown<'a>(group: Gathered<'a>, weight: u32) -> Gathered<'a>
    requires { group.weight + weight ≤ MOST_WEIGHT }
    ensures plain { plain_group result ≡ folding.heavier (plain_group group.entry) weight }
    ensures kept { (cat : Catalogue) → IsKept cat group.entry → IsKept cat result }
{
    Gathered {
        number: group.number,
        first: group.first,
        weight: group.weight + weight,
        digest: group.digest,
    }
}

/// Puts a group at a place.
fn put<'a>(groups: &mut Vec<Gathered<'a>>, at: usize, group: Gathered<'a>)
    requires { at < length groups.old.items }
    ensures { groups.new.items ≡ set groups.old.items at group.entry }
{
    groups[at] = group;
}

/// The group at a place.
fn group_at<'a>(groups: &[Gathered<'a>], at: usize) -> Gathered<'a>
    requires { at < length groups.now }
    ensures { result ≡ get_or groups.now at result }
{
    groups[at]
}

/// A statement joins the group that takes it.
fn grow(cat: &Catalogue, groups: &mut Vec<Gathered<'_>>, at: usize, statement: &Statement)
    requires place { at ≡ place_from cat.now statement.now 0 groups.old.items }
    requires there { at < length groups.old.items }
    requires kept { All (IsKept cat.now) groups.old.items }
    ensures joined { (n : ℕ) → plain_groups groups.new.items ≡ folding.joined cat.now (plain_groups groups.old.items) (n, statement.now) }
    ensures kept { All (IsKept cat.now) groups.new.items }
{
    let group = group_at(groups.as_slice(), at);
    let joined = grown(group, statement.weight);
    put(groups, at, joined);
}

/// A group of one statement, with its number and its digest.
fn begun<'a>(number: u16, statement: &'a Statement, digest: u64) -> Gathered<'a>
    ensures plain { plain_group result ≡ folding.begun (number, statement.now) }
    ensures kept { (cat : Catalogue) → NamesWork cat statement.now.work → digest ≡ digest_of cat statement.now.work → IsKept cat result }
{
    Gathered {
        number,
        first: statement,
        weight: statement.weight,
        digest,
    }
}

/// A statement begins a group behind the others, where none of these takes it.
fn begin<'a>(
    cat: &Catalogue,
    groups: &mut Vec<Gathered<'a>>,
    at: usize,
    number: u16,
    statement: &'a Statement,
    digest: u64,
) -> Result<(), AllocError>
    requires place { at ≡ place_from cat.now statement.now 0 groups.old.items }
    requires past { length groups.old.items ≤ at }
    requires kept { All (IsKept cat.now) groups.old.items }
    requires named { NamesWork cat.now statement.now.work }
    requires told { digest ≡ digest_of cat.now statement.now.work }
    ensures joined { OnOk result (plain_groups groups.new.items ≡ folding.joined cat.now (plain_groups groups.old.items) (number, statement.now)) }
    ensures kept { OnOk result (All (IsKept cat.now) groups.new.items) }
{
    groups.push(begun(number, statement, digest))?;
    Ok(())
}

/// A statement with its number joins the first group that takes it, or begins one.
fn join<'a>(
    cat: &Catalogue,
    groups: &mut Vec<Gathered<'a>>,
    number: u16,
    statement: &'a Statement,
) -> Result<(), AllocError>
    requires kept { All (IsKept cat.now) groups.old.items }
    requires named { NamesWork cat.now statement.now.work }
    ensures joined { OnOk result (plain_groups groups.new.items ≡ folding.joined cat.now (plain_groups groups.old.items) (number, statement.now)) }
    ensures kept { OnOk result (All (IsKept cat.now) groups.new.items) }
{
    let digest = digest(cat, &statement.work);
    let at = place(cat, groups.as_slice(), statement, digest);
    if at < groups.len() {
        grow(cat, groups, at, statement);
        return Ok(());
    }
    begin(cat, groups, at, number, statement, digest)?;
    Ok(())
}

/// The numbers of the groups' first statements.
fn numbers(alloc: Global, groups: &[Gathered<'_>]) -> Result<List<u16>, AllocError>
    ensures { IfOk result (λ list. list ≡ map (λ g. g.number) groups.now) }
{
    let items = groups.iter().map(|group| group.number).collect(alloc)?;
    Ok(List { items })
}

/// The weights of the groups.
fn weights(alloc: Global, groups: &[Gathered<'_>]) -> Result<List<u32>, AllocError>
    ensures { IfOk result (λ list. list ≡ map (λ g. g.weight) groups.now) }
{
    let items = groups.iter().map(|group| group.weight).collect(alloc)?;
    Ok(List { items })
}

/// Groups the statements of a workload, which name what the catalogue has: they are taken in order, and each joins the
/// earliest group whose first statement is alike and whose weight with its own is at most 10^6, else it begins a group.
/// Each group is compared by a digest first, so that a workload without alike statements takes little longer. The only
/// error is want of memory.
#[tactic(auto, unfolding(crate::specs::Groups::groups_of))]
pub fn fold(alloc: Global, cat: &Catalogue, statements: &[Statement]) -> Result<Folded, NoMemory>
    requires few { length statements.now ≤ MOST_STATEMENTS }
    requires named { All (λ statement. NamesWork cat.now statement.work) statements.now }
    ensures first { IfOk result (λ folded. folded.first ≡ map (λ g. g.number) (folding.groups_of cat.now statements.now)) }
    ensures weights { IfOk result (λ folded. folded.weights ≡ map (λ g. g.weight) (folding.groups_of cat.now statements.now)) }
{
    let mut groups: Vec<Gathered<'_>> = Vec::new(alloc);
    'statements: for at in 0..statements.len() {
        join(cat, &mut groups, at as u16 + 1, &statements[at])?;
    }
    let first = numbers(alloc, groups.as_slice())?;
    let weights = weights(alloc, groups.as_slice())?;
    Ok(Folded { first, weights })
}
