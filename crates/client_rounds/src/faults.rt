//! Why a client stops.
ghost use Rattle.std.specs.Prelude.{◌≡◌};
ghost use Rattle.client_rounds.specs.declared.faults.AskFault.TheVariants as ask;
ghost use Rattle.client_rounds.specs.Faults.{query_fault, param_fault};

use private_plan::PlanKind;
use query_reader::{ParamFault, QueryFault};
use spl_words::{Differ, FrameFault, Provider};
use std::alloc::AllocError;

/// Which of the texts that a client is handed a fault is in.
#[derive(Clone, Copy, Debug, PartialEq, Eq)]
pub enum Source {
    /// The client's own note.
    Note,
    /// The first answer given.
    First,
    /// The second answer given.
    Second,
}

/// Why a client doesn't begin a session, go on with it or end it. Want of memory is in none of the faults inside.
#[derive(Debug, Drop)]
pub enum AskFault {
    /// The query isn't read, or isn't accepted for the shape.
    Query(QueryFault),
    /// The parameters aren't those of the query.
    Param(ParamFault),
    /// These bytes are no note, or no answer.
    Frame(Source, FrameFault),
    /// Both answers are of this provider.
    SameProvider(Provider),
    /// The note and the answers aren't of one round of one session over one table, an answer is to another key than the
    /// note's, or it hasn't as many words as the plan's round.
    Differ(Differ),
    /// The combined word of that number, from 0, can't stand in an answer.
    BadWord(u32, u64),
    /// The source of random words failed: where a session is begun, and nowhere else.
    DrawFault,
    /// Queries with such a plan aren't answered yet.
    NotBuilt(PlanKind),
    /// There was no memory for it.
    OutOfMemory,
}

impl From<AllocError> for AskFault {
    ghost from_gives = { λ _ e. e ≡ ask.OutOfMemory };

    fn from(_: AllocError) -> Self {
        AskFault::OutOfMemory
    }
}

impl From<QueryFault> for AskFault {
    ghost from_gives = { λ fault e. e ≡ query_fault fault };

    fn from(fault: QueryFault) -> Self {
        match fault {
            QueryFault::OutOfMemory => AskFault::OutOfMemory,
            fault => AskFault::Query(fault),
        }
    }
}

impl From<ParamFault> for AskFault {
    ghost from_gives = { λ fault e. e ≡ param_fault fault };

    fn from(fault: ParamFault) -> Self {
        match fault {
            ParamFault::OutOfMemory => AskFault::OutOfMemory,
            fault => AskFault::Param(fault),
        }
    }
}
