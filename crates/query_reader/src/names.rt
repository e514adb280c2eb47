//! The refusals of names.
ghost use Rattle.std.specs.Prelude.{◌≡◌, ◌<◌, length, position, find, is_none, IfSome, IfNone, IsTrue};
ghost use Rattle.spl_values.specs.Kinds.{is_kind};
ghost use Rattle.query_reader.specs.Refusals.{no_table, no_column, wrong_type, name_refusal, is_wrong as wrong_test, is_wrong_in};
ghost use Rattle.query_reader.specs.Columns.{column_of, kind_of};
ghost use Rattle.query_reader.specs.Accepted.{Finds, TellsFault};

use crate::columns::{column, literal_value};
use crate::uses::{Role, Use, uses};
use query_parser::{Query, QueryFault};
use spl_values::{ColumnType, Schema, bits};
use std::alloc::Global;

fn check_table(query: &Query, schema: &Schema) -> Result<(), QueryFault>
    ensures { Finds result (no_table query.now schema.now) }
{
    if query.table == schema.table {
        Ok(())
    } else {
        Err(QueryFault::NoTable)
    }
}

/// Every name is a column.
fn check_columns(uses: &[Use], schema: &Schema) -> Result<(), QueryFault>
    ensures { TellsFault result (no_column uses.now schema.now) }
{
    for found in uses {
        if column(schema, &found.name).is_none() {
            return Err(QueryFault::NoColumn(found.name.clone()?));
        }
    }
    Ok(())
}

/// Whether a column of that type can't stand there.
fn is_wrong(kind: &ColumnType, role: &Role) -> bool
    requires { IsTrue (is_kind kind.now) }
    ensures { result ≡ wrong_test kind.now role.now }
{
    match role {
        Role::Summed => !matches!(kind, ColumnType::Uint(_)),
        Role::Ranked => bits(kind) > 64,
        Role::Compared(value) => literal_value(kind, value).is_none(),
        Role::Bounded(least, greatest) => {
            literal_value(kind, least).is_none() || literal_value(kind, greatest).is_none()
        }
        Role::Secret => false,
        Role::Grouped => !matches!(kind, ColumnType::Enum(_)),
    }
}

/// Whether the column is there, and can't stand there.
fn is_wrong_use(schema: &Schema, found: &Use) -> bool
    ensures { result ≡ is_wrong_in (kind_of schema.now found.now.name) found.now.role }
{
    match column(schema, &found.name) {
        Some(place) => {
            let column = &schema.columns.as_slice()[place as usize];
            is_wrong(&column.kind, &found.role)
        }
        None => false,
    }
}

/// Every column can stand where its name does.
fn check_types(uses: &[Use], schema: &Schema) -> Result<(), QueryFault>
    ensures { TellsFault result (wrong_type uses.now schema.now) }
{
    for found in uses {
        if is_wrong_use(schema, found) {
            return Err(QueryFault::WrongType(found.name.clone()?));
        }
    }
    Ok(())
}

/// The table is the schema's, and every name is that of a column which can stand there.
#[tactic(auto, unfolding(crate::specs::Refusals::name_refusal))]
pub(crate) fn check_names(alloc: Global, query: &Query, schema: &Schema) -> Result<(), QueryFault>
    ensures { TellsFault result (name_refusal query.now schema.now) }
{
    check_table(query, schema)?;
    let uses = uses(alloc, query)?;
    check_columns(&uses, schema)?;
    check_types(&uses, schema)
}
