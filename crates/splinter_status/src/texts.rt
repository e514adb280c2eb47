//! The lines and the numbers of statuses.
ghost use Rattle.std.specs.Prelude.{◌≡◌, ◌++◌, codes, IfOk};
ghost use Rattle.std.specs.String.{string_bytes};
ghost use Rattle.splinter_status.specs.Texts.{line, line_of, sum_text, part_text, query_fault_text, param_fault_text, shape_fault_text, value_fault_text, table_fault_text, frame_fault_text, status_text, status_number};

use crate::frame_texts::{differ, frame_fault, provider_digit};
use crate::status::{Part, Status};
use csv_tables::TableFault;
use query_reader::{ParamFault, QueryFault};
use spl_values::{Name, ShapeFault, ValueFault};
use spl_words::FrameFault;
use std::alloc::{AllocError, Global};
use sum_bounds::AtRow;

fn part_name(part: Part) -> &'static str
    ensures { result.now ≡ part_text part }
{
    match part {
        Part::Table => "table",
        Part::Shape => "shape",
        Part::Query => "query",
        Part::Parameter => "parameter",
        Part::Plan => "plan",
    }
}

/// Why a query isn't read or accepted.
fn query_fault(alloc: Global, fault: &QueryFault) -> Result<String, AllocError>
    ensures { IfOk result (λ t. string_bytes t ≡ query_fault_text fault.now) }
{
    match fault {
        QueryFault::NoReading(at) => format!(in alloc; "no reading at {at}"),
        QueryFault::NoTable => format!(in alloc; "no table"),
        QueryFault::NoColumn(name) => {
            let name = name.as_str();
            format!(in alloc; "no column {name}")
        }
        QueryFault::WrongType(name) => {
            let name = name.as_str();
            format!(in alloc; "wrong type of {name}")
        }
        QueryFault::NoSecret => format!(in alloc; "no secret"),
        QueryFault::BranchesDiffer(branch) => format!(in alloc; "branch {branch} differs"),
        QueryFault::TooWide(bits) => format!(in alloc; "{bits} key bits"),
        QueryFault::TooManyBranches(branches) => format!(in alloc; "{branches} branches"),
        QueryFault::BadTopk => format!(in alloc; "bad TOPK"),
        QueryFault::CellsTooWide(words) => format!(in alloc; "{words} cell words"),
        QueryFault::TooLong(bytes) => format!(in alloc; "{bytes} bytes"),
        QueryFault::OutOfMemory => Ok(String::new(alloc)),
    }
}

/// Why parameters are refused.
fn param_fault(alloc: Global, fault: &ParamFault) -> Result<String, AllocError>
    ensures { IfOk result (λ t. string_bytes t ≡ param_fault_text fault.now) }
{
    match fault {
        ParamFault::Count(needed, had) => format!(in alloc; ": needed {needed}, had {had}"),
        ParamFault::Value(number, fault) => {
            let what = value_fault(*fault);
            format!(in alloc; " {number}: {what}")
        }
        ParamFault::BadCode(number) => format!(in alloc; " {number}: bad code"),
        ParamFault::OutOfMemory => Ok(String::new(alloc)),
    }
}

/// Why a text describes no shape.
fn shape_fault(alloc: Global, fault: ShapeFault) -> Result<String, AllocError>
    ensures { IfOk result (λ t. string_bytes t ≡ shape_fault_text fault) }
{
    match fault {
        ShapeFault::BadLine(line) => format!(in alloc; "line {line}: bad"),
        ShapeFault::SameName(line) => format!(in alloc; "line {line}: same name"),
        ShapeFault::TooManyColumns(line) => format!(in alloc; "line {line}: too many columns"),
        ShapeFault::TooManyRows => format!(in alloc; "line 2: too many rows"),
        ShapeFault::OutOfMemory => Ok(String::new(alloc)),
    }
}

/// Why a text is no value of a column.
fn value_fault(fault: ValueFault) -> &'static str
    ensures { result.now ≡ value_fault_text fault }
{
    match fault {
        ValueFault::NotANumber => "not a number",
        ValueFault::TooLarge => "too large",
        ValueFault::TooLong(_) => "too long",
        ValueFault::BadByte(_) => "bad byte",
        ValueFault::NoSuchLabel => "no such label",
    }
}

/// Why a text has no table of a shape.
fn table_fault(alloc: Global, fault: TableFault) -> Result<String, AllocError>
    ensures { IfOk result (λ t. string_bytes t ≡ table_fault_text fault) }
{
    match fault {
        TableFault::BadHeader => format!(in alloc; "bad header"),
        TableFault::RowLength(row) => format!(in alloc; "row {row}: length"),
        TableFault::BadCell(row, column, fault) => {
            let what = value_fault(fault);
            format!(in alloc; "row {row}, column {column}: {what}")
        }
        TableFault::RowCount(found, stated) => format!(in alloc; "{found} rows, not {stated}"),
        TableFault::OutOfMemory => Ok(String::new(alloc)),
    }
}

/// A text behind its label.
fn labelled(alloc: Global, label: &str, text: &str) -> Result<String, AllocError>
    ensures { IfOk result (λ t. string_bytes t ≡ label.now ++ text.now) }
{
    format!(in alloc; "{label}{text}")
}

/// Why the file of this name holds no frame.
fn frame(alloc: Global, name: &Name, fault: &FrameFault) -> Result<String, AllocError>
    ensures { IfOk result (λ t. string_bytes t ≡ codes "frame " ++ (name.now ++ (codes ": " ++ frame_fault_text fault.now))) }
{
    let name = name.as_str();
    let what = frame_fault(alloc, fault)?;
    let what = what.as_str();
    format!(in alloc; "frame {name}: {what}")
}

/// What a status says.
fn text(alloc: Global, status: &Status) -> Result<String, AllocError>
    ensures { IfOk result (λ t. string_bytes t ≡ status_text status.now) }
{
    match status {
        Status::Done | Status::OutputFault | Status::OutOfMemory => Ok(String::new(alloc)),
        Status::Usage => String::from_str(alloc, "usage"),
        Status::Query(fault) => labelled(alloc, "query: ", query_fault(alloc, fault)?.as_str()),
        Status::Param(fault) => labelled(alloc, "parameter", param_fault(alloc, fault)?.as_str()),
        Status::Shape(fault) => labelled(alloc, "shape: ", shape_fault(alloc, *fault)?.as_str()),
        Status::Table(fault) => labelled(alloc, "table: ", table_fault(alloc, *fault)?.as_str()),
        // The name of the column isn't known here.
        Status::SumBound(_, _) => Ok(String::new(alloc)),
        Status::Frame(name, fault) => frame(alloc, name, fault),
        Status::Differ(which) => labelled(alloc, "differ: ", differ(alloc, which)?.as_str()),
        Status::BadWord(number, word) => format!(in alloc; "word {number}: {word}"),
        Status::MissingFile(name) => labelled(alloc, "no file ", name.as_str()),
        Status::FileFault => String::from_str(alloc, "file fault"),
        Status::DrawFault => String::from_str(alloc, "draw fault"),
        Status::FileTooLong(name) => labelled(alloc, "file too long ", name.as_str()),
        Status::SameProvider(provider) => {
            labelled(alloc, "same provider ", provider_digit(*provider))
        }
        Status::NotBuilt(part) => labelled(alloc, "not built: ", part_name(*part)),
    }
}

/// Where the sum of the column of this name is too large.
fn sum(alloc: Global, name: &Name, at: AtRow) -> Result<String, AllocError>
    ensures { IfOk result (λ t. string_bytes t ≡ sum_text name.now at) }
{
    let name = name.as_str();
    let row = at.row;
    let sum = at.sum;
    format!(in alloc; "sum: column {name}, row {row}, sum {sum}")
}

/// A text as a line of the program.
fn line_of_text(alloc: Global, text: &str) -> Result<String, AllocError>
    ensures { IfOk result (λ t. string_bytes t ≡ line text.now) }
{
    format!(in alloc; "splinter: {text}\n")
}

/// The line that a status tells; empty where it tells none.
pub fn line(alloc: Global, status: &Status) -> Result<String, AllocError>
    ensures { IfOk result (λ t. string_bytes t ≡ line_of status.now) }
{
    match status {
        Status::Done | Status::OutputFault | Status::OutOfMemory | Status::SumBound(_, _) => {
            Ok(String::new(alloc))
        }
        status => line_of_text(alloc, text(alloc, status)?.as_str()),
    }
}

/// The line of a sum over its bound, in the column of this name.
pub fn sum_line(alloc: Global, name: &Name, at: AtRow) -> Result<String, AllocError>
    ensures { IfOk result (λ t. string_bytes t ≡ line (sum_text name.now at)) }
{
    line_of_text(alloc, sum(alloc, name, at)?.as_str())
}

/// The number that the program ends with.
pub fn number_of(status: &Status) -> u8
    ensures { result ≡ status_number status.now }
{
    match status {
        Status::Done => 0,
        Status::Usage => 2,
        Status::Query(_) => 3,
        Status::Param(_) => 4,
        Status::Shape(_) => 5,
        Status::Table(_) => 6,
        Status::SumBound(_, _) => 7,
        Status::Frame(_, _) => 8,
        Status::Differ(_) => 9,
        Status::BadWord(_, _) => 10,
        Status::MissingFile(_) => 11,
        Status::FileFault => 12,
        Status::OutputFault => 13,
        Status::DrawFault => 14,
        Status::OutOfMemory => 20,
        Status::FileTooLong(_) => 21,
        Status::SameProvider(_) => 22,
        Status::NotBuilt(_) => 30,
    }
}
