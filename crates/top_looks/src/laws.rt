//! What the lines of the columns say of an opened array. The function does nothing.
ghost use Rattle.std.specs.Prelude.{◌≡◌, ℕ, List, Bool, length, Some, Ok, slice_get};
ghost use Rattle.eng_cols.specs.Cols.{device_set};
ghost use Rattle.top_open.specs.declared.fronts.Front.{Front};
ghost use Rattle.top_open.specs.declared.plan.Needs.{Needs};
ghost use Rattle.top_open.specs.declared.plan.Plan.{Plan};
ghost use Rattle.top_open.specs.Opening.{Opened, opened_in};
ghost use Rattle.top_looks.specs.Laws.{IsOwnOrSpare};

/// A law: the device of a column, live or filling, is its own disk, or one of the spares. So a live
/// column is `optimal` exactly where its own disk serves it, and `spared J` where spare J does, which there is.
pub fn devices_are_own_or_spares()
    ensures { (q : Needs) (p : Plan) (present : List Bool) (sizes : List ℕ) (fronts : List Front)
        (o : Opened)
        → opened_in q p present sizes fronts ≡ Ok o
        → (c d : ℕ) → device_set (slice_get o.columns c) ≡ Some d
        → IsOwnOrSpare (length present) p.spares c d }
{}
