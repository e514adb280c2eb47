//! Whether a query is accepted for a schema.
ghost use Rattle.std.specs.Prelude.{◌≡◌, map, IfOk};
ghost use Rattle.query_grammar.specs.declared.condition.Atom.{Atom as TheAtom};
ghost use Rattle.query_reader.specs.Columns.{place_of};
ghost use Rattle.query_reader.specs.Refusals.{refusal, atom_name as name_of_atom};
ghost use Rattle.query_reader.specs.Accepted.{Checks, IsCheckedFor, TellsFault, known_of, checked_of, bound_of as bound_in};

use crate::checked::{Bounds, Checked};
use crate::columns::{literal_code, place};
use crate::form::{atom_name, check_form, first_branch, key_bits};
use crate::names::check_names;
use crate::sizes::{cell_spec, check_sizes};
use query_parser::{Atom, Public, Query, QueryFault, ends_in_a_range};
use spl_values::Schema;
use spl_words::Places;
use std::alloc::{AllocError, Global};

/// The bound that a public condition sets.
fn bound(schema: &Schema, public: &Public) -> (u32, u128, u128)
    ensures { result ≡ bound_in schema.now public.now }
{
    match public {
        Public::Equal(name, value) => {
            let code = literal_code(schema, name, value);
            (place(schema, name), code, code)
        }
        Public::Between(name, least, greatest) => (
            place(schema, name),
            literal_code(schema, name, least),
            literal_code(schema, name, greatest),
        ),
    }
}

fn bounds(alloc: Global, schema: &Schema, publics: &[Public]) -> Result<Bounds, AllocError>
    ensures { IfOk result (λ bounds. bounds ≡ map (bound_in schema.now) publics.now) }
{
    let mut bounds = Vec::new(alloc);
    for public in publics {
        bounds.push(bound(schema, public))?;
    }
    Ok(Bounds::from_vec(bounds))
}

/// The places of the columns of a branch.
fn places(alloc: Global, schema: &Schema, atoms: &[Atom]) -> Result<Places, AllocError>
    ensures { IfOk result (λ places. places ≡ map (λ a. place_of schema.now (name_of_atom a)) atoms.now) }
{
    let mut places = Vec::new(alloc);
    for atom in atoms {
        places.push(place(schema, atom_name(atom)))?;
    }
    Ok(Places::from_vec(places))
}

/// None of the refusals holds.
#[tactic(auto, unfolding(crate::specs::Refusals::refusal))]
fn check(alloc: Global, query: &Query, schema: &Schema) -> Result<(), QueryFault>
    ensures { TellsFault result (refusal query.now schema.now) }
{
    check_names(alloc, query, schema)?;
    check_form(query, schema)?;
    check_sizes(alloc, query, schema)
}

/// The bounds that public conditions set, and the places of the columns of a branch.
fn bounds_and_places(
    alloc: Global,
    schema: &Schema,
    publics: &[Public],
    atoms: &[Atom],
) -> Result<(Bounds, Places), AllocError>
    ensures bounds { IfOk result (λ both. both.0 ≡ map (bound_in schema.now) publics.now) }
    ensures places { IfOk result (λ both. both.1 ≡ map (λ a. place_of schema.now (name_of_atom a)) atoms.now) }
{
    let bounds = bounds(alloc, schema, publics)?;
    let places = places(alloc, schema, atoms)?;
    Ok((bounds, places))
}

/// What is known of a query with these public conditions, and this branch 0.
fn known(
    alloc: Global,
    query: &Query,
    schema: &Schema,
    publics: &[Public],
    atoms: &[Atom],
    counts: (u32, u32),
) -> Result<Checked, AllocError>
    ensures { IfOk result (λ c. c ≡ known_of query.now schema.now publics.now atoms.now counts.0 counts.1) }
{
    let (branches, bits) = counts;
    let (public, columns) = bounds_and_places(alloc, schema, publics, atoms)?;
    let spec = cell_spec(alloc, query, schema)?;
    let query = query.clone()?;
    Ok(Checked {
        query,
        spec,
        public,
        columns,
        range: ends_in_a_range(atoms),
        branches,
        bits,
    })
}

/// What is known of an accepted query.
fn checked(alloc: Global, query: &Query, schema: &Schema) -> Result<Checked, AllocError>
    requires { refusal query.now schema.now ≡ None }
    ensures { IfOk result (λ c. c ≡ checked_of query.now schema.now) }
{
    let branches = query.branches.as_slice();
    let counts = (branches.len() as u32, key_bits(query, schema) as u32);
    known(
        alloc,
        query,
        schema,
        query.public.as_slice(),
        first_branch(branches),
        counts,
    )
}

/// Judges a query for a schema, and tells what is known of an accepted one.
///
/// # Errors
///
/// The first refusal that holds, in the order of `QueryFault`, never `NoReading`; or `OutOfMemory`.
pub fn check_query(alloc: Global, query: &Query, schema: &Schema) -> Result<Checked, QueryFault>
    // Accepted exactly where no refusal holds; else the first refusal, unless memory runs out.
    ensures checks { Checks result query.now schema.now }
    ensures known { IfOk result (λ checked. IsCheckedFor checked schema.now) }
{
    check(alloc, query, schema)?;
    Ok(checked(alloc, query, schema)?)
}
