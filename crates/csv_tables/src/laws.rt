//! Laws of tables as texts: each is the contract of a function that does nothing.
ghost use Rattle.csv_tables.specs.Reading.{TableTextsRead};
ghost use Rattle.csv_tables.specs.Writing.{WrittenTablesRead};

/// Reading the text of a table gives the table's rows.
pub fn written_tables_read()
    ensures { WrittenTablesRead }
{}

/// A text reads as rows exactly where it says them: a header of the column names, and a record for each row.
pub fn table_texts_read()
    ensures { TableTextsRead }
{}
