//! Columns, schemas and shapes.
ghost use Rattle.std.specs.Prelude.{◌≡◌};

use crate::kinds::ColumnType;
use crate::lists::Name;
use std::alloc::AllocError;
use std::marker::Model;

/// A column of a table. Its name is one, and its type is one that a column may have.
#[derive(Debug, Drop)]
pub struct Column {
    /// The name.
    pub name: Name,
    /// The type.
    pub kind: ColumnType,
}

impl Model for Column {
    ghost use Rattle.spl_values.specs.Shapes.{ColumnParts, IsColumn};

    ghost Value = { ColumnParts };

    ghost view = { λ c. record { name = c.name; kind = c.kind } };

    ghost invariant = { λ c. IsColumn (record { name = c.name; kind = c.kind }) };

    ghost inverse = { λ c. record { name = c.name; kind = c.kind } };
}

impl Clone for Column {
    ghost is_clone = { λ column copy. copy ≡ column };

    fn clone(&self) -> Result<Column, AllocError> {
        Ok(Column {
            name: self.name.clone()?,
            kind: self.kind.clone()?,
        })
    }
}

/// Columns, seen as a list.
#[derive(Debug, Drop)]
pub struct Columns {
    columns: Vec<Column>,
}

impl Model for Columns {
    ghost use Rattle.std.specs.Prelude.{List};
    ghost use Rattle.spl_values.specs.Shapes.{ColumnParts};

    ghost Value = { List ColumnParts };

    ghost view = { λ list. list.columns.items };
}

impl Columns {
    /// The list of these columns.
    pub fn from_vec(columns: Vec<Column>) -> Columns
        ensures { result ≡ columns.items }
    {
        Columns { columns }
    }

    /// The columns, in order.
    pub fn as_slice(&self) -> &[Column]
        ensures { result.now ≡ self.now }
    {
        self.columns.as_slice()
    }
}

impl Clone for Columns {
    ghost is_clone = { λ list copy. copy ≡ list };

    fn clone(&self) -> Result<Columns, AllocError> {
        Ok(Columns {
            columns: self.columns.clone()?,
        })
    }
}

/// A table's name and its columns. The name is one, and there are 1 to 24 columns, whose names
/// differ.
#[derive(Debug, Drop)]
pub struct Schema {
    /// The table's name.
    pub table: Name,
    /// The columns, in order.
    pub columns: Columns,
}

impl Model for Schema {
    ghost use Rattle.spl_values.specs.Shapes.{SchemaParts, IsSchema};

    ghost Value = { SchemaParts };

    ghost view = { λ s. record { table = s.table; columns = s.columns } };

    ghost invariant = { λ s. IsSchema (record { table = s.table; columns = s.columns }) };

    ghost inverse = { λ s. record { table = s.table; columns = s.columns } };
}

impl Clone for Schema {
    ghost is_clone = { λ schema copy. copy ≡ schema };

    fn clone(&self) -> Result<Schema, AllocError> {
        Ok(Schema {
            table: self.table.clone()?,
            columns: self.columns.clone()?,
        })
    }
}

/// A schema and a number of rows, at most 262,144.
#[derive(Debug, Drop)]
pub struct Shape {
    /// The table's name and its columns.
    pub schema: Schema,
    /// The number of rows.
    pub rows: u32,
}

impl Model for Shape {
    ghost use Rattle.spl_values.specs.Shapes.{ShapeParts, IsShape};

    ghost Value = { ShapeParts };

    ghost view = { λ s. record { schema = s.schema; rows = s.rows } };

    ghost invariant = { λ s. IsShape (record { schema = s.schema; rows = s.rows }) };

    ghost inverse = { λ s. record { schema = s.schema; rows = s.rows } };
}

impl Clone for Shape {
    ghost is_clone = { λ shape copy. copy ≡ shape };

    fn clone(&self) -> Result<Shape, AllocError> {
        Ok(Shape {
            schema: self.schema.clone()?,
            rows: self.rows,
        })
    }
}
