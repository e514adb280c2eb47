ghost use Rattle.std.specs.Prelude.{◌≡◌, ◌∷◌, [], OnOk, IfOk, ◌&&◌, Option};
ghost use Rattle.query_grammar.specs.Machine.{add_atom, add_public, may_atom, may_atom_in, may_public_in, public_mode, nothing_found, opens_in, none_yet, opened, may_go_on, ends_in, close_in, or_in, next_branch, close, with_atoms};
ghost use Rattle.query_grammar.specs.Queries.{ends_in_range};

use query_grammar::{Atom, Atoms, Branches, Mode, Public, Publics};
use std::alloc::{AllocError, Global};
use std::marker::Model;

/// What comes behind a part.
#[derive(Clone, Copy, Debug)]
pub(crate) enum Ending {
    /// Another part.
    More,
    /// The group's name.
    Group,
    /// Nothing.
    Done,
}

/// What is read of a condition.
#[derive(Drop)]
pub(crate) struct Conditions {
    mode: Mode,
    public: Vec<Public>,
    branches: Vec<Atoms>,
    atoms: Vec<Atom>,
}

impl Model for Conditions {
    ghost use Rattle.query_grammar.specs.Machine.{Found};

    ghost Value = { Found };

    ghost view = { λ c. record { mode = c.mode; public = c.public.items; branches = c.branches.items; atoms = c.atoms.items } };
}

/// Whether an atom may stand in this mode.
fn mode_may_atom(mode: Mode) -> bool
    ensures { result ≡ may_atom_in mode }
{
    !matches!(mode, Mode::Behind)
}

/// Whether a public condition may stand in this mode.
fn mode_may_public(mode: Mode) -> bool
    ensures { result ≡ may_public_in mode }
{
    !matches!(mode, Mode::Inside | Mode::Apart)
}

/// The mode behind a public condition.
fn with_public(mode: Mode) -> Mode
    ensures { result ≡ public_mode mode }
{
    match mode {
        Mode::Atoms => Mode::Mixed,
        other => other,
    }
}

/// Whether the last atom is a range.
pub fn ends_in_a_range(atoms: &[Atom]) -> bool
    ensures { result ≡ ends_in_range atoms.now }
{
    match atoms {
        [] => false,
        [Atom::Between(_)] => true,
        [Atom::Equal(_)] => false,
        [_, more @ ..] => ends_in_a_range(more),
    }
}

impl Conditions {
    /// Before the first part.
    pub(crate) fn new(alloc: Global) -> Conditions
        ensures { result ≡ nothing_found }
    {
        Conditions {
            mode: Mode::Atoms,
            public: Vec::new(alloc),
            branches: Vec::new(alloc),
            atoms: Vec::new(alloc),
        }
    }

    /// Whether an atom may follow.
    pub(crate) fn may_atom(&self) -> bool
        ensures { result ≡ may_atom self.now }
    {
        mode_may_atom(self.mode) && !ends_in_a_range(&self.atoms)
    }

    /// Whether a public condition may follow.
    pub(crate) fn may_public(&self) -> bool
        ensures { result ≡ may_public_in self.now.mode }
    {
        mode_may_public(self.mode)
    }

    /// Takes an atom.
    pub(crate) fn add_atom(&mut self, atom: Atom) -> Result<(), AllocError>
        ensures { OnOk result (self.new ≡ add_atom self.old atom) }
    {
        self.atoms.push(atom)?;
        Ok(())
    }

    /// Takes a public condition.
    pub(crate) fn add_public(&mut self, public: Public) -> Result<(), AllocError>
        ensures { OnOk result (self.new ≡ add_public self.old public) }
    {
        self.public.push(public)?;
        self.mode = with_public(self.mode);
        Ok(())
    }

    /// Whether the parentheses may open.
    pub(crate) fn may_open(&self) -> bool
        ensures { result ≡ (opens_in self.now.mode && none_yet self.now.atoms) }
    {
        matches!(self.mode, Mode::Atoms | Mode::Mixed) && self.atoms.is_empty()
    }

    /// Opens the parentheses.
    pub(crate) fn open(&mut self, alloc: Global)
        ensures { self.new ≡ opened self.old }
    {
        self.mode = Mode::Inside;
        self.branches = Vec::new(alloc);
        self.atoms = Vec::new(alloc);
    }

    /// Whether AND may follow.
    pub(crate) fn may_go_on(&self) -> bool
        ensures { result ≡ may_go_on self.now }
    {
        mode_may_public(self.mode) || !ends_in_a_range(&self.atoms)
    }

    /// Whether the condition may end.
    pub(crate) fn may_end(&self) -> bool
        ensures { result ≡ ends_in self.now.mode }
    {
        !matches!(self.mode, Mode::Inside)
    }

    /// Whether the parentheses may close.
    pub(crate) fn may_close(&self) -> bool
        ensures { result ≡ close_in self.now.mode }
    {
        matches!(self.mode, Mode::Inside)
    }

    /// The mode behind OR, where OR may follow.
    pub(crate) fn or_mode(&self) -> Option<Mode>
        ensures { result ≡ or_in self.now.mode }
    {
        match self.mode {
            Mode::Atoms | Mode::Apart => Some(Mode::Apart),
            Mode::Inside => Some(Mode::Inside),
            Mode::Mixed | Mode::Behind => None,
        }
    }

    /// Ends a branch, and goes on in this mode.
    fn end_branch(&mut self, alloc: Global, mode: Mode) -> Result<(), AllocError>
        ensures { OnOk result (self.new ≡ next_branch self.old mode) }
    {
        let atoms = std::mem::replace(&mut self.atoms, Vec::new(alloc));
        self.branches.push(Atoms::from_vec(atoms))?;
        self.mode = mode;
        Ok(())
    }

    /// Ends a branch at OR.
    pub(crate) fn next_branch(&mut self, alloc: Global, mode: Mode) -> Result<(), AllocError>
        ensures { OnOk result (self.new ≡ next_branch self.old mode) }
    {
        self.end_branch(alloc, mode)
    }

    /// Ends the last branch in parentheses.
    pub(crate) fn close(&mut self, alloc: Global) -> Result<(), AllocError>
        ensures { OnOk result (self.new ≡ close self.old) }
    {
        self.end_branch(alloc, Mode::Behind)
    }

    /// The public conditions and the branches, once the condition is whole.
    pub(crate) fn into_parts(self) -> Result<(Publics, Branches), AllocError>
        ensures { IfOk result (λ parts. (parts.0 ≡ self.public) × (parts.1 ≡ with_atoms self.branches self.atoms)) }
    {
        let Conditions {
            public,
            mut branches,
            atoms,
            ..
        } = self;
        if !atoms.is_empty() {
            branches.push(Atoms::from_vec(atoms))?;
        }
        Ok((Publics::from_vec(public), Branches::from_vec(branches)))
    }
}
