//! The errors of a command's phases. Each phase has a type of its own, so that what comes late can't be
//! taken for what comes early.
use crate::status::Part;
use csv_tables::TableFault;
use query_reader::{ParamFault, QueryFault};
use spl_values::{Name, ShapeFault};
use spl_words::{Differ, FrameFault, Provider};
use sum_bounds::AtRow;

/// Why a file was not read.
#[derive(Debug, Drop)]
pub enum ReadStop {
    /// No file has this name.
    Missing(Name),
    /// The file of this name is longer than is read.
    TooLong(Name),
    /// The files failed.
    Fault,
    /// There was not enough memory.
    OutOfMemory,
}

/// What the words and the files refuse. Want of memory is no refusal, and is in no fault here.
#[derive(Debug, Drop)]
pub enum Refusal {
    /// The words form no command.
    Usage,
    /// The query isn't read, or isn't accepted for the schema.
    Query(QueryFault),
    /// The number of parameters is wrong, or one is no value of its column.
    Param(ParamFault),
    /// The shape's file describes no shape.
    Shape(ShapeFault),
    /// The table's file has no table of the shape.
    Table(TableFault),
    /// The sum of the column of this name and number is too large.
    SumBound(Name, u32, AtRow),
    /// The file of this name holds no frame.
    Frame(Name, FrameFault),
    /// Two things that have to agree don't.
    Differ(Differ),
    /// The combined word of this number isn't good.
    BadWord(u32, u64),
    /// No file has this name.
    MissingFile(Name),
    /// The file of this name is longer than is read.
    FileTooLong(Name),
    /// Both answers are of this provider.
    SameProvider(Provider),
    /// This part has a form that isn't built yet.
    NotBuilt(Part),
}

/// Why no words were drawn.
#[derive(Debug, Drop)]
pub enum InputStop {
    /// What the words and the files hold is refused.
    Refused(Refusal),
    /// A file couldn't be read.
    FileFault,
    /// There was not enough memory.
    OutOfMemory,
}

/// Why there is nothing to print but a refusal.
#[derive(Debug, Drop)]
pub enum Stopped {
    /// No words were drawn yet.
    Input(InputStop),
    /// The source of random words failed.
    DrawFault,
    /// A file couldn't be written.
    FileFault,
    /// There was not enough memory.
    OutOfMemory,
}
