use spl_values::Name;

/// What a query asks for: one result for each item.
#[derive(Clone, Debug, Drop)]
pub enum Item {
    /// How many rows match.
    Count,
    /// The sum of a column.
    Sum(Name),
    /// The mean of a column.
    Avg(Name),
    /// The greatest value of a column.
    Max(Name),
    /// The least value of a column.
    Min(Name),
    /// So many rows with the greatest values of the first column, each shown with its value of the
    /// second.
    TopK(u64, Name, Name),
}
