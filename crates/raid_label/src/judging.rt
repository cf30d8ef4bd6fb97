//! Whether a label is the wanted one.
ghost use Rattle.std.specs.Prelude.{◌≡◌, MatchResult, Some, None, option_map};
ghost use Rattle.raid_label.specs.Judged.{fault_in, unlabelled_fault};
ghost use Rattle.raid_label.specs.Steps.{shape_fault};

use crate::fault::LabelFault;
use crate::label::Label;

/// Whether the label that was found on a device is the wanted one.
///
/// `found_version` counts only where there is no label: it is what the function of that name answers of the sector.
///
/// # Errors
///
/// The first of these that is so, with what was found and what was wanted:
///
/// - `NoLabel` where there is no label, and version 1, 2 or none was found;
/// - `Version` where there is no label, and another version was found;
/// - `Shape` where columns, unit, level, b, k, r, lambda or rows differ, the first of them;
/// - `Serial` where the serial numbers differ;
/// - `Column` where the columns do.
#[tactic(auto, unfolding(crate::specs::Judged::fault_in, crate::specs::Steps::shape_fault))]
pub fn judge(label: Option<&Label>, found_version: u32, wanted: &Label) -> Result<(), LabelFault>
    ensures { MatchResult result
        (λ _. fault_in (option_map (λ l. l.now) label.entry) found_version wanted.now ≡ None)
        (λ fault. fault_in (option_map (λ l. l.now) label.entry) found_version wanted.now
        ≡ Some fault) }
{
    let Some(label) = label else {
        return Err(fault_of_version(found_version));
    };
    if let Some(fault) = shape_fault(label, wanted) {
        return Err(fault);
    }
    if label.serial != wanted.serial {
        return Err(LabelFault::Serial {
            found: label.serial,
            wanted: wanted.serial,
        });
    }
    if label.column != wanted.column {
        return Err(LabelFault::Column {
            found: label.column,
            wanted: wanted.column,
        });
    }
    Ok(())
}

/// What is wrong with a sector that holds no label, where this version was found: that there is none
/// of a version that is read, which are 1 and 2, or that it is of another.
pub fn fault_of_version(found: u32) -> LabelFault
    ensures { result ≡ unlabelled_fault found }
{
    if found == 1 || found == 2 {
        LabelFault::NoLabel {
            found: 0,
            wanted: 0,
        }
    } else {
        LabelFault::Version { found, wanted: 2 }
    }
}

// The first field of the array's shape that differs.
#[tactic(auto, unfolding(crate::specs::Steps::shape_fault))]
fn shape_fault(label: &Label, wanted: &Label) -> Option<LabelFault>
    ensures { result ≡ shape_fault label.now wanted.now }
{
    if label.columns != wanted.columns {
        return Some(shape(label.columns, wanted.columns));
    }
    if label.unit != wanted.unit {
        return Some(shape(label.unit, wanted.unit));
    }
    if label.level != wanted.level {
        return Some(shape(label.level, wanted.level));
    }
    if label.b != wanted.b {
        return Some(shape(label.b, wanted.b));
    }
    if label.k != wanted.k {
        return Some(shape(label.k, wanted.k));
    }
    if label.r != wanted.r {
        return Some(shape(label.r, wanted.r));
    }
    if label.lambda != wanted.lambda {
        return Some(shape(label.lambda, wanted.lambda));
    }
    if label.rows != wanted.rows {
        return Some(shape(label.rows, wanted.rows));
    }
    None
}

fn shape(found: u32, wanted: u32) -> LabelFault
    ensures { result ≡ LabelFault.Shape found wanted }
{
    LabelFault::Shape { found, wanted }
}
