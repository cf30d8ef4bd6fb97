//! What holds of full tables.
ghost use Rattle.std.specs.Prelude.{◌≡◌, ◌<◌, ◌≤◌, ◌-◌, ℕ};
ghost use Rattle.lay_core.specs.Layout.{SparesLieByUnits};
ghost use Rattle.lay_design.specs.Design.{Blocks, IsDesign};
ghost use Rattle.lay_decluster.specs.Limits.{IsTabled};
ghost use Rattle.lay_decluster.specs.Shapes.{spared};
ghost use Rattle.lay_decluster.specs.Table.{seat, IsTaken};
ghost use Rattle.lay_decluster.specs.Positions.{unit_position, spared_position};

/// Each position of a stripe takes the lowest free row of its column: earlier stripes have all rows
/// below it, and not this one.
pub fn rows_are_the_lowest_free()
    ensures lower { (d : Blocks) (s p w : ℕ) → IsDesign d → p < d.k → w < (seat d s p).row
        → IsTaken d s (record { column = (seat d s p).column; row = w }) }
    ensures free { (d : Blocks) (s p : ℕ) → IsDesign d → p < d.k → ¬ (IsTaken d s (seat d s p)) }
{}

/// The data units of a stripe stand in tuple order.
pub fn data_units_stand_in_tuple_order()
    ensures without_spare { (k j a b : ℕ) → a < b → b < k - 1
        → unit_position k j a < unit_position k j b }
    ensures with_spare { (k j a b : ℕ) → a < b → b < k - 2
        → spared_position k j a < spared_position k j b }
{}

/// No column has spare places alone: each has check units, as many in each full table as any other.
pub fn spare_places_lie_by_units()
    ensures { (d : Blocks) (u rows : ℕ) → IsTabled d u rows → 3 ≤ d.k
        → SparesLieByUnits (spared d u rows) }
{}
