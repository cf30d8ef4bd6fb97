//! The column that is filling.
ghost use Rattle.std.specs.Prelude.{◌≡◌, ◌-◌, ◌<◌, ◌==◌, length, if◌then◌else◌, slice_index_or, slice_set};
ghost use Rattle.eng_cols.specs.declared.column.Column.TheVariants as set;
ghost use Rattle.top_open.specs.Opening.{filled_by, with_filling};
ghost use Rattle.top_open.specs.Steps.{filling_of, kept_if_left};

use eng_cols::Column;
use raid_label::Label;

// a column that the label names as filling
fn filling_of(label: &Label, column: Column) -> Column
    ensures { result ≡ filling_of label.now column }
{
    match column {
        Column::Live { device } => {
            if label.clean == 1 {
                Column::Filling {
                    device,
                    done: label.done,
                }
            } else {
                Column::Dead
            }
        }
        Column::Dead => Column::Dead,
        Column::Filling { device, done } => Column::Filling { device, done },
        Column::Spread => Column::Spread,
    }
}

// makes the column filling that the label names
#[tactic(auto, unfolding(crate::specs::Opening::with_filling))]
fn fill(label: &Label, columns: &mut Vec<Column>)
    ensures { columns.new.items ≡ with_filling label.now columns.old.items }
{
    if label.filling == 0 {
        return;
    }
    let c = (label.filling - 1) as usize;
    if c < columns.len() {
        columns[c] = filling_of(label, columns[c]);
    }
}

/// Makes the column filling that the newest label names, if there is a label.
pub(crate) fn fill_by(newest: Option<Label>, columns: &mut Vec<Column>)
    ensures { columns.new.items ≡ filled_by newest columns.old.items }
{
    if let Some(label) = newest {
        fill(&label, columns);
    }
}

// a column that is filling stays so where it has stripes left
fn kept_if_left(count: u32, column: Column) -> Column
    ensures { result ≡ kept_if_left count column }
{
    match column {
        Column::Filling { device, done } => {
            if done < count {
                Column::Filling { device, done }
            } else {
                Column::Dead
            }
        }
        Column::Live { device } => Column::Live { device },
        Column::Dead => Column::Dead,
        Column::Spread => Column::Spread,
    }
}

/// A column that is filling, and of which as many stripes are done as it has, is dead: there are so
/// many stripes of the column.
pub fn keep_if_left(columns: &mut [Column], column: u32, count: u32)
    requires { column < length columns.old }
    ensures { columns.new ≡ slice_set columns.old column
        (kept_if_left count (slice_index_or columns.old column set.Dead)) }
{
    columns[column as usize] = kept_if_left(count, columns[column as usize]);
}
