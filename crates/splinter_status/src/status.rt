//! How a command ends.
use csv_tables::TableFault;
use query_reader::{ParamFault, QueryFault};
use spl_values::{Name, ShapeFault};
use spl_words::{Differ, FrameFault, Provider};
use sum_bounds::AtRow;

/// A part of the tool.
#[derive(Clone, Copy, Debug, PartialEq, Eq)]
pub enum Part {
    /// Some tables.
    Table,
    /// Some shapes.
    Shape,
    /// Some queries.
    Query,
    /// Some parameters.
    Parameter,
    /// Some plans of queries: today those of MAX, MIN and TOPK.
    Plan,
}

/// How a command ends.
#[derive(Debug, Drop)]
pub enum Status {
    /// It printed its text.
    Done,
    /// The words form no command.
    Usage,
    /// The query isn't read, or isn't accepted for the schema.
    Query(QueryFault),
    /// The number of parameters is wrong, or one is no value of its column.
    Param(ParamFault),
    /// The shape's file describes no shape.
    Shape(ShapeFault),
    /// The table's file has no table of the shape.
    Table(TableFault),
    /// The sum of the column of this number reaches 2^64 at a row.
    SumBound(u32, AtRow),
    /// The file of this name holds no frame.
    Frame(Name, FrameFault),
    /// Two things that have to agree don't.
    Differ(Differ),
    /// The combined word of this number has this value, which isn't good.
    BadWord(u32, u64),
    /// No file has this name.
    MissingFile(Name),
    /// The files failed.
    FileFault,
    /// The output failed.
    OutputFault,
    /// The source of random words failed.
    DrawFault,
    /// There was not enough memory.
    OutOfMemory,
    /// The file of this name is longer than is read.
    FileTooLong(Name),
    /// Both answers are of this provider.
    SameProvider(Provider),
    /// This part has a form that isn't built yet.
    NotBuilt(Part),
}
