//! What a cell keeps.
ghost use Rattle.std.specs.Prelude.{◌≡◌};

use std::alloc::{AllocError, Global};
use std::marker::Model;

/// One item of a cell. The numbers are columns, from 0; a `TopK` has how many rows, the sort column and the shown one.
#[derive(Clone, Copy, Debug, PartialEq, Eq)]
pub enum CellItem {
    Count,
    Sum(u32),
    Avg(u32),
    Max(u32),
    Min(u32),
    TopK(u32, u32, u32),
}

/// Items, seen as a list.
#[derive(Debug, Drop)]
pub struct CellItems {
    items: Vec<CellItem>,
}

impl Model for CellItems {
    ghost use Rattle.std.specs.Prelude.{List};
    ghost use Rattle.cell_merge.specs.declared.spec.CellItem.{CellItem};

    ghost Value = { List CellItem };

    ghost view = { λ l. l.items.items };
}

impl CellItems {
    /// The list of these items.
    pub fn from_vec(items: Vec<CellItem>) -> CellItems
        ensures { result ≡ items.items }
    {
        CellItems { items }
    }

    /// The items, in order.
    pub fn as_slice(&self) -> &[CellItem]
        ensures { result.now ≡ self.now }
    {
        self.items.as_slice()
    }
}

impl Clone for CellItems {
    ghost is_clone = { λ items copy. copy ≡ items };

    fn clone(&self) -> Result<Self, AllocError> {
        Ok(CellItems {
            items: self.items.clone()?,
        })
    }
}

/// What a cell keeps: for each label of the group column, or once where there is none, a count of rows and the
/// words of the items. `labels` is how many labels the group column has; it isn't read where there is none.
#[derive(Debug, Drop)]
pub struct CellSpec {
    pub group: Option<u32>,
    pub labels: u32,
    pub items: CellItems,
}

impl Clone for CellSpec {
    ghost is_clone = { λ spec copy. copy ≡ spec };

    fn clone(&self) -> Result<Self, AllocError> {
        Ok(CellSpec {
            group: self.group,
            labels: self.labels,
            items: self.items.clone()?,
        })
    }
}
