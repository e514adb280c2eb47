//! Reading files, and the shapes and tables that they describe.
ghost use Rattle.std.specs.Prelude.{◌≡◌, IfSome, IfOk, IfErr, IsErrOf};
ghost use Rattle.spl_outside.specs.Causes.{Counts};
ghost use Rattle.spl_values.specs.ShapeTexts.{shape_of};
ghost use Rattle.splinter_status.specs.Phases.{ReadGives, InputGives, StopsAtFiles};
ghost use Rattle.csv_tables.specs.Reading.{table_of_text};
ghost use Rattle.splinter_steps.specs.Reads.{file_of, or_shape_refusal, shape_in, or_table_refusal, table_in};

use csv_tables::TableFault;
use spl_outside::{FileStop, Files};
use spl_values::{Name, Shape, ShapeFault, Table};
use splinter_status::{InputStop, ReadStop, Refusal};
use std::alloc::Global;

/// The most bytes of a file that are read.
const FILE_LIMIT: u64 = 67_108_864;

/// Reads a file.
pub fn read_file<F: Files>(alloc: Global, files: &mut F, name: &str) -> Result<Vec<u8>, ReadStop>
    ensures gives { IfSome (F.held files.old) (λ m. ReadGives result (file_of m name.now)) }
    ensures stays { F.held files.new ≡ F.held files.old }
    ensures counts { Counts (F.faults files.old) (F.faults files.new) (IsErrOf result ReadStop.Fault) }
{
    match files.read(alloc, name, FILE_LIMIT) {
        Ok(bytes) => Ok(bytes),
        Err(FileStop::Absent) => Err(ReadStop::Missing(Name::from_string(String::from_str(
            alloc, name,
        )?))),
        Err(FileStop::TooLong) => Err(ReadStop::TooLong(Name::from_string(String::from_str(
            alloc, name,
        )?))),
        Err(FileStop::Failed) => Err(ReadStop::Fault),
        Err(FileStop::OutOfMemory) => Err(ReadStop::OutOfMemory),
    }
}

/// The shape that a text describes.
fn shape_of_text(alloc: Global, text: &[u8]) -> Result<Shape, InputStop>
    ensures gives { InputGives (λ shape. shape) result (or_shape_refusal (shape_of text.now)) }
    ensures refusals { IfErr result StopsAtFiles }
    ensures no_fault { IsErrOf result InputStop.FileFault → ⊥ }
{
    match spl_values::read_shape(alloc, text) {
        Ok(shape) => Ok(shape),
        Err(ShapeFault::OutOfMemory) => Err(InputStop::OutOfMemory),
        Err(fault) => Err(InputStop::Refused(Refusal::Shape(fault))),
    }
}

/// Reads a file and the shape that it describes.
#[tactic(auto, unfolding(crate::specs::Reads::shape_in))]
pub fn read_shape<F: Files>(alloc: Global, files: &mut F, name: &str) -> Result<Shape, InputStop>
    ensures gives { IfSome (F.held files.old) (λ m. InputGives (λ shape. shape) result (shape_in m name.now)) }
    ensures refusals { IfErr result StopsAtFiles }
    ensures stays { F.held files.new ≡ F.held files.old }
    ensures counts { Counts (F.faults files.old) (F.faults files.new) (IsErrOf result InputStop.FileFault) }
{
    let text = read_file(alloc, files, name)?;
    shape_of_text(alloc, &text)
}

/// The table that a text has for a shape.
fn table_of_text(alloc: Global, text: &[u8], shape: &Shape) -> Result<Table, InputStop>
    ensures gives { InputGives (λ table. table) result (or_table_refusal shape.now (table_of_text shape.now text.now)) }
    ensures shape { IfOk result (λ table. table.shape ≡ shape.now) }
    ensures refusals { IfErr result StopsAtFiles }
    ensures no_fault { IsErrOf result InputStop.FileFault → ⊥ }
{
    match csv_tables::read_table(alloc, text, shape) {
        Ok(table) => Ok(table),
        Err(TableFault::OutOfMemory) => Err(InputStop::OutOfMemory),
        Err(fault) => Err(InputStop::Refused(Refusal::Table(fault))),
    }
}

/// Reads a file and the table that it has for a shape.
#[tactic(auto, unfolding(crate::specs::Reads::table_in))]
pub fn read_table<F: Files>(
    alloc: Global,
    files: &mut F,
    name: &str,
    shape: &Shape,
) -> Result<Table, InputStop>
    ensures gives { IfSome (F.held files.old) (λ m. InputGives (λ table. table) result (table_in m name.now shape.now)) }
    ensures shape { IfOk result (λ table. table.shape ≡ shape.now) }
    ensures refusals { IfErr result StopsAtFiles }
    ensures stays { F.held files.new ≡ F.held files.old }
    ensures counts { Counts (F.faults files.old) (F.faults files.new) (IsErrOf result InputStop.FileFault) }
{
    let text = read_file(alloc, files, name)?;
    table_of_text(alloc, &text, shape)
}
