//! The columns of a frame by their names, for those who seek many.

ghost use Rattle.std.specs.Prelude.{◌≡◌, map, None, Some, IfErr, IfOk};
ghost use Rattle.gb_base.specs.PolarsError.{Explains};
ghost use Rattle.gb_series.specs.Frame.{missing_column};
ghost use Rattle.gb_defs.specs.Column.{find_column};
ghost use Rattle.gb_series.specs.Series.{value_of};

use gb_base::error::{PolarsError, PolarsResult};
use gb_base::small_str::PlSmallStr;
use gb_cols::series_trait::SeriesTrait;
use gb_series::series::Series;
use std::alloc::{AllocError, Global};
use std::collections::BTreeMap;
use std::marker::Model;

/// Columns by their names, in whose order they are kept: names are not hashed, so that nobody can choose names that
/// make it slow.
#[derive(Drop)]
pub(crate) struct NamedColumns<'a> {
    alloc: Global,
    columns: &'a [Series],
    stored: BTreeMap<&'a str, &'a Series>,
}

impl<'a> Model for NamedColumns<'a> {
    ghost use Rattle.std.specs.Prelude.{map};
    ghost use Rattle.gb_defs.specs.Column.{Frame, frame_code};
    ghost use Rattle.gb_series.specs.Series.{value_of};
    ghost use Rattle.gb_frame.specs.NamedColumns.{AreStored};

    ghost Value = { Frame };

    ghost coded = { frame_code };

    ghost view = { λ n. map value_of n.columns.now };

    ghost invariant = { λ n. AreStored (map value_of n.columns.now) n.stored };
}

impl<'a> NamedColumns<'a> {
    // By as many comparisons of names as there are columns, times the logarithm of their number.
    pub(crate) fn new(alloc: Global, columns: &'a [Series]) -> Result<NamedColumns<'a>, AllocError>
        ensures { IfOk result (λ named. named ≡ map value_of columns.now) }
    {
        let mut stored = BTreeMap::new(alloc);
        // From the last on, so that of columns with one name the first stays.
        let mut left = columns.len();
        while left > 0 {
            left -= 1;
            let column = &columns[left];
            let Ok(_) = stored.insert(column.name().as_str(), column) else {
                return Err(AllocError);
            };
        }
        Ok(NamedColumns {
            alloc,
            columns,
            stored,
        })
    }

    /// The column of this name, by as many comparisons as the logarithm of the number of columns.
    pub(crate) fn column(&self, name: &str) -> PolarsResult<&'a Series>
        ensures ok { IfOk result
            (λ column. find_column self.now name.now ≡ Some (value_of column.now)) }
        ensures err { IfErr result (λ e. Explains e (missing_column self.now name.now)) }
    {
        match self.stored.get(name) {
            Some(column) => Ok(*column),
            None => Err(PolarsError::ColumnNotFound(PlSmallStr::from_str(self.alloc, name)?)),
        }
    }
}
