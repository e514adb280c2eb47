ghost use Rattle.std.specs.Prelude.{◌≡◌};
ghost use Rattle.query_parser.specs.declared.fault.ReadFault.TheVariants.{NoReading, OutOfMemory};
ghost use Rattle.query_parser.specs.declared.fault.QueryFault.TheVariants.{OutOfMemory as QueryOutOfMemory};

use spl_values::Name;
use std::alloc::{AllocError, AllocFailed};

/// Why a query is refused. Of several reasons the first in this order is told.
#[derive(Debug, Drop)]
pub enum QueryFault {
    /// The offset of the first token that no query goes on with, or the text's length where the
    /// text ends too early.
    NoReading(u64),
    /// The query's table isn't the schema's.
    NoTable,
    /// The first name, in the order of the canonical text, that is no column.
    NoColumn(Name),
    /// The first name, in the order of the canonical text, whose column has a type that its place
    /// doesn't take.
    WrongType(Name),
    /// The query has no question mark.
    NoSecret,
    /// The first branch, from 0, whose atoms aren't those of branch 0.
    BranchesDiffer(u32),
    /// The joined key has so many bits, more than 128.
    TooWide(u64),
    /// There are so many branches, more than 8.
    TooManyBranches(u64),
    /// TOPK of 0 or more than 32 rows, with GROUP BY, or beside another item.
    BadTopk,
    /// A cell has so many words, more than 128.
    CellsTooWide(u64),
    /// The canonical text has so many bytes, more than 4,096.
    TooLong(u64),
    OutOfMemory,
}

impl From<AllocError> for QueryFault {
    ghost from_gives = { λ _ e. e ≡ QueryOutOfMemory };

    fn from(_e: AllocError) -> QueryFault {
        QueryFault::OutOfMemory
    }
}

impl<T: Drop> From<AllocFailed<T>> for QueryFault {
    ghost from_gives = { λ _ e. e ≡ QueryOutOfMemory };

    fn from(_e: AllocFailed<T>) -> QueryFault {
        QueryFault::OutOfMemory
    }
}

/// No query goes on with the token at this offset, or with the text's end there.
#[derive(Clone, Copy, Debug)]
pub(crate) struct Unread {
    pub(crate) at: u64,
}

/// Why a text isn't read as a query.
#[derive(Debug, Drop)]
pub(crate) enum ReadFault {
    NoReading(u64),
    OutOfMemory,
}

impl From<Unread> for ReadFault {
    ghost from_gives = { λ unread e. e ≡ NoReading unread.at };

    fn from(unread: Unread) -> ReadFault {
        ReadFault::NoReading(unread.at)
    }
}

impl From<AllocError> for ReadFault {
    ghost from_gives = { λ _ e. e ≡ OutOfMemory };

    fn from(_e: AllocError) -> ReadFault {
        ReadFault::OutOfMemory
    }
}

impl<T: Drop> From<AllocFailed<T>> for ReadFault {
    ghost from_gives = { λ _ e. e ≡ OutOfMemory };

    fn from(_e: AllocFailed<T>) -> ReadFault {
        ReadFault::OutOfMemory
    }
}
