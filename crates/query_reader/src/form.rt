//! The refusals of a query's form.
ghost use Rattle.std.specs.Prelude.{◌≡◌, ◌^◌, ◌-◌, ◌≤◌, length, min, position, not, Bool};
ghost use Rattle.std.specs.List.{list_any, sum_by};
ghost use Rattle.query_reader.specs.Columns.{column_bits as bits_of_column};
ghost use Rattle.query_reader.specs.Refusals.{no_secret, differing, branches_differ, too_wide, too_many_branches, bad_topk, form_refusal, first_branch as branch_of, same_atom as atom_test, same_atoms as atoms_test, is_bad_topk as topk_test, atom_name as name_of_atom, key_bits as bits_of_key};
ghost use Rattle.query_reader.specs.Accepted.{Finds};

use crate::columns::column_bits;
use query_parser::{Atom, Atoms, Item, Query, QueryFault};
use spl_values::{Name, Schema};

fn check_secret(query: &Query) -> Result<(), QueryFault>
    ensures { Finds result (no_secret query.now) }
{
    if query.branches.as_slice().is_empty() {
        Err(QueryFault::NoSecret)
    } else {
        Ok(())
    }
}

/// The atoms of branch 0.
pub(crate) fn first_branch(branches: &[Atoms]) -> &[Atom]
    ensures { result.now ≡ branch_of branches.now }
{
    match branches {
        [] => &[],
        [first, ..] => first.as_slice(),
    }
}

fn same_atom(a: &Atom, b: &Atom) -> bool
    ensures { result ≡ atom_test a.now b.now }
{
    match (a, b) {
        (Atom::Equal(a), Atom::Equal(b)) => *a == *b,
        (Atom::Between(a), Atom::Between(b)) => *a == *b,
        _ => false,
    }
}

fn same_atoms(a: &[Atom], b: &[Atom]) -> bool
    ensures { result ≡ atoms_test a.now b.now }
{
    match a {
        [] => b.is_empty(),
        [x, more @ ..] => match b {
            [] => false,
            [y, others @ ..] => same_atom(x, y) && same_atoms(more, others),
        },
    }
}

/// The first branch whose atoms aren't these.
fn first_different(atoms: &[Atom], branches: &[Atoms]) -> Option<usize>
    ensures { result ≡ position (λ b. not (atoms_test atoms.now b)) branches.now }
{
    branches
        .iter()
        .position(|branch| !same_atoms(atoms, branch.as_slice()))
}

/// The number, or 2^32 - 1 where it is more.
pub(crate) fn capped(n: usize) -> u32
    ensures { result ≡ min n (2 ^ 32 - 1) }
{
    u32::try_from(n).unwrap_or(u32::MAX)
}

/// The first branch whose atoms aren't those of branch 0.
fn differing_branch(branches: &[Atoms]) -> Option<u32>
    ensures { result ≡ differing branches.now }
{
    match first_different(first_branch(branches), branches) {
        Some(place) => Some(capped(place)),
        None => None,
    }
}

/// Every branch has the atoms of branch 0.
fn check_branches(query: &Query) -> Result<(), QueryFault>
    ensures { Finds result (branches_differ query.now) }
{
    match differing_branch(query.branches.as_slice()) {
        Some(place) => Err(QueryFault::BranchesDiffer(place)),
        None => Ok(()),
    }
}

/// The column of an atom.
pub(crate) fn atom_name(atom: &Atom) -> &Name
    ensures { result.now ≡ name_of_atom atom.now }
{
    match atom {
        Atom::Equal(name) => name,
        Atom::Between(name) => name,
    }
}

/// The bits of the columns of some atoms, or 2^64 - 1 where they are more.
fn atoms_bits(schema: &Schema, atoms: &[Atom]) -> u64
    ensures { result ≡ min (sum_by (λ a. bits_of_column schema.now (name_of_atom a)) atoms.now) (2 ^ 64 - 1) }
{
    let mut bits: u64 = 0;
    for atom in atoms {
        bits = bits.saturating_add(u64::from(column_bits(schema, atom_name(atom))));
    }
    bits
}

/// The bits of the joined key, or 2^64 - 1 where they are more.
pub(crate) fn key_bits(query: &Query, schema: &Schema) -> u64
    ensures { result ≡ min (bits_of_key query.now schema.now) (2 ^ 64 - 1) }
{
    atoms_bits(schema, first_branch(query.branches.as_slice()))
}

fn check_width(query: &Query, schema: &Schema) -> Result<(), QueryFault>
    ensures { Finds result (too_wide query.now schema.now) }
{
    let bits = key_bits(query, schema);
    if bits > 128 {
        Err(QueryFault::TooWide(bits))
    } else {
        Ok(())
    }
}

fn check_branch_count(query: &Query) -> Result<(), QueryFault>
    ensures { Finds result (too_many_branches query.now) }
{
    let branches = query.branches.as_slice().len();
    if branches > 8 {
        Err(QueryFault::TooManyBranches(branches as u64))
    } else {
        Ok(())
    }
}

/// Whether the item is TOPK with a number that it doesn't take, or where it can't stand.
fn is_bad_topk(grouped: bool, items: usize, item: &Item) -> bool
    ensures { result ≡ topk_test grouped items item.now }
{
    match item {
        Item::TopK(count, _, _) => *count == 0 || *count > 32 || grouped || items != 1,
        _ => false,
    }
}

/// Whether one of the items is such.
fn any_bad_topk(grouped: bool, items: &[Item]) -> bool
    ensures { result ≡ list_any (topk_test grouped (length items.now)) items.now }
{
    items
        .iter()
        .any(|item| is_bad_topk(grouped, items.len(), item))
}

fn check_topk(query: &Query) -> Result<(), QueryFault>
    ensures { Finds result (bad_topk query.now) }
{
    if any_bad_topk(query.group.is_some(), query.items.as_slice()) {
        Err(QueryFault::BadTopk)
    } else {
        Ok(())
    }
}

/// There is a secret, the branches have the same atoms, the joined key isn't too wide, there
/// aren't too many branches, and TOPK stands where it can.
#[tactic(auto, unfolding(crate::specs::Refusals::form_refusal))]
pub(crate) fn check_form(query: &Query, schema: &Schema) -> Result<(), QueryFault>
    ensures { Finds result (form_refusal query.now schema.now) }
{
    check_secret(query)?;
    check_branches(query)?;
    check_width(query, schema)?;
    check_branch_count(query)?;
    check_topk(query)
}
