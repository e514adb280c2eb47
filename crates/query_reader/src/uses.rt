//! Where the names of columns stand in a query.
ghost use Rattle.std.specs.Prelude.{◌≡◌, [], ◌∷◌, ◌++◌, IfOk, map};
ghost use Rattle.std.specs.List.{flat_map};
ghost use Rattle.query_reader.specs.Uses.{item_uses as uses_of_item, public_use as use_of_public, atom_use as use_of_atom, group_uses as uses_of_group, uses_of};

use query_parser::{Atom, Atoms, Item, Literal, Public, Query};
use spl_values::Name;
use std::alloc::{AllocError, Global};

/// What a column has to be, by where its name stands.
#[derive(Debug, Drop)]
pub enum Role {
    /// Under SUM or AVG.
    Summed,
    /// Under MAX, MIN or TOPK.
    Ranked,
    /// Compared with a literal.
    Compared(Literal),
    /// Between two literals.
    Bounded(Literal, Literal),
    /// Compared with question marks.
    Secret,
    /// Behind GROUP BY.
    Grouped,
}

/// A name of a column, and where it stands.
#[derive(Debug, Drop)]
pub struct Use {
    pub name: Name,
    pub role: Role,
}

fn put_use(uses: &mut Vec<Use>, name: &Name, role: Role) -> Result<(), AllocError>
    ensures { IfOk result (λ _. uses.new.items ≡ uses.old.items ++ record { name = name.now; role = role } ∷ []) }
{
    let name = name.clone()?;
    uses.push(Use { name, role })?;
    Ok(())
}

fn item_uses(uses: &mut Vec<Use>, item: &Item) -> Result<(), AllocError>
    ensures { IfOk result (λ _. uses.new.items ≡ uses.old.items ++ uses_of_item item.now) }
{
    match item {
        Item::Count => Ok(()),
        Item::Sum(name) => put_use(uses, name, Role::Summed),
        Item::Avg(name) => put_use(uses, name, Role::Summed),
        Item::Max(name) => put_use(uses, name, Role::Ranked),
        Item::Min(name) => put_use(uses, name, Role::Ranked),
        Item::TopK(_, sort, show) => {
            put_use(uses, sort, Role::Ranked)?;
            put_use(uses, show, Role::Ranked)
        }
    }
}

fn items_uses(uses: &mut Vec<Use>, items: &[Item]) -> Result<(), AllocError>
    ensures { IfOk result (λ _. uses.new.items ≡ uses.old.items ++ flat_map uses_of_item items.now) }
{
    for item in items {
        item_uses(uses, item)?;
    }
    Ok(())
}

fn public_use(uses: &mut Vec<Use>, public: &Public) -> Result<(), AllocError>
    ensures { IfOk result (λ _. uses.new.items ≡ uses.old.items ++ use_of_public public.now ∷ []) }
{
    match public {
        Public::Equal(name, value) => {
            let value = value.clone()?;
            put_use(uses, name, Role::Compared(value))
        }
        Public::Between(name, least, greatest) => {
            let least = least.clone()?;
            let greatest = greatest.clone()?;
            put_use(uses, name, Role::Bounded(least, greatest))
        }
    }
}

fn publics_uses(uses: &mut Vec<Use>, publics: &[Public]) -> Result<(), AllocError>
    ensures { IfOk result (λ _. uses.new.items ≡ uses.old.items ++ map use_of_public publics.now) }
{
    for public in publics {
        public_use(uses, public)?;
    }
    Ok(())
}

fn atom_use(uses: &mut Vec<Use>, atom: &Atom) -> Result<(), AllocError>
    ensures { IfOk result (λ _. uses.new.items ≡ uses.old.items ++ use_of_atom atom.now ∷ []) }
{
    match atom {
        Atom::Equal(name) => put_use(uses, name, Role::Secret),
        Atom::Between(name) => put_use(uses, name, Role::Secret),
    }
}

fn branch_uses(uses: &mut Vec<Use>, atoms: &[Atom]) -> Result<(), AllocError>
    ensures { IfOk result (λ _. uses.new.items ≡ uses.old.items ++ map use_of_atom atoms.now) }
{
    for atom in atoms {
        atom_use(uses, atom)?;
    }
    Ok(())
}

fn branches_uses(uses: &mut Vec<Use>, branches: &[Atoms]) -> Result<(), AllocError>
    ensures { IfOk result (λ _. uses.new.items ≡ uses.old.items ++ flat_map (map use_of_atom) branches.now) }
{
    for branch in branches {
        branch_uses(uses, branch.as_slice())?;
    }
    Ok(())
}

fn group_use(uses: &mut Vec<Use>, group: &Option<Name>) -> Result<(), AllocError>
    ensures { IfOk result (λ _. uses.new.items ≡ uses.old.items ++ uses_of_group group.now) }
{
    match group {
        None => Ok(()),
        Some(name) => put_use(uses, name, Role::Grouped),
    }
}

/// The names of columns in a query, in the order of its canonical text.
pub(crate) fn uses(alloc: Global, query: &Query) -> Result<Vec<Use>, AllocError>
    ensures { IfOk result (λ uses. uses.items ≡ uses_of query.now) }
{
    let mut uses = Vec::new(alloc);
    items_uses(&mut uses, query.items.as_slice())?;
    publics_uses(&mut uses, query.public.as_slice())?;
    branches_uses(&mut uses, query.branches.as_slice())?;
    group_use(&mut uses, &query.group)?;
    Ok(uses)
}
