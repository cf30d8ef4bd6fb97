//! Which unit stands at which position of a tuple.
ghost use Rattle.std.specs.Prelude.{◌≡◌, ◌<◌, ◌≤◌, ◌-◌};
ghost use Rattle.lay_decluster.specs.Positions.{unit_position, spare_position, spared_position};

/// Without spare places, in copy `copy` of the design: the check unit, the last of `width`, stands at
/// this position, and the data units at the others in tuple order.
pub(crate) fn unit_position(width: u32, copy: u32, unit: u32) -> u32
    requires copy { copy < width }
    requires unit { unit < width }
    ensures { result ≡ unit_position width copy unit }
{
    if unit == width - 1 {
        copy
    } else if unit < copy {
        unit
    } else {
        unit + 1
    }
}

/// The spare place stands behind the check unit, around the end.
pub(crate) fn spare_position(width: u32, copy: u32) -> u32
    requires few { width ≤ 32 }
    requires copy { copy < width }
    ensures { result ≡ spare_position width copy }
{
    (copy + 1) % width
}

/// With spare places, in copy `copy` of the design: the check unit, the last of `width` - 1, stands at
/// this position, and the data units at those that it and the spare place leave, in tuple order.
pub(crate) fn spared_position(width: u32, copy: u32, unit: u32) -> u32
    requires least { 3 ≤ width }
    requires few { width ≤ 32 }
    requires copy { copy < width }
    requires unit { unit < width - 1 }
    ensures { result ≡ spared_position width copy unit }
{
    if unit == width - 2 {
        copy
    } else if copy + 1 == width {
        unit + 1
    } else if unit < copy {
        unit
    } else {
        unit + 2
    }
}
