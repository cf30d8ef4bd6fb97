//! What is so of every grouping. These functions do nothing.
ghost use Rattle.std.specs.Prelude.{◌≡◌, ◌≢◌, ◌<◌, ℕ, List, Option, None, Some, length, slice_index_or};
ghost use Rattle.raid_label.specs.declared.label.Label.{Label};
ghost use Rattle.raid_assemble.specs.declared.sets.Set.{Set};
ghost use Rattle.raid_assemble.specs.declared.sets.Standing.{Standing};
ghost use Rattle.raid_assemble.specs.declared.sets.Standing.TheVariants.{Member};
ghost use Rattle.raid_assemble.specs.Sets.{IsGrouping};
ghost use Rattle.raid_assemble.specs.Standings.{HasSetOf, HasCounterOf};

/// The set that a label's standing names is that of its serial. Each label has one standing, and a place without a
/// label alone is bare.
pub fn set_is_of_the_serial()
    ensures { (labels : List (Option Label)) (sets : List Set) (places : List Standing) (i : ℕ)
        (l : Label) (d : Standing)
        → IsGrouping labels sets places → i < length labels → slice_index_or labels i None ≡ Some l
        → HasSetOf sets l.serial (slice_index_or places i d) }
{}

/// No set has two members for one column.
pub fn members_have_columns_of_their_own()
    ensures { (labels : List (Option Label)) (sets : List Set) (places : List Standing)
        (i j set column other : ℕ)
        (d : Standing) → IsGrouping labels sets places → i < j → j < length labels
        → slice_index_or places i d ≡ Member set column
        → slice_index_or places j d ≡ Member set other
        → column ≢ other }
{}

/// The set of a member is there, and the member's column is one of its columns.
pub fn members_have_columns_of_the_set()
    ensures { (labels : List (Option Label)) (sets : List Set) (places : List Standing)
        (i set column : ℕ)
        (d : Standing) (x : Set) → IsGrouping labels sets places → i < length labels
        → slice_index_or places i d ≡ Member set column
        → (set < length sets) × (column < (slice_index_or sets set x).columns) }
{}

/// All labels of a set but the stale ones have the set's counter.
pub fn set_has_one_counter()
    ensures { (labels : List (Option Label)) (sets : List Set) (places : List Standing) (i : ℕ)
        (l : Label) (d : Standing)
        → IsGrouping labels sets places → i < length labels → slice_index_or labels i None ≡ Some l
        → HasCounterOf sets l.counter (slice_index_or places i d) }
{}
