//! What holds wherever a round of labels is stopped. These functions do nothing.
ghost use Rattle.std.specs.Prelude.{◌≡◌, ◌⊎◌, ◌<◌, ◌≤◌, ℕ, List, Bool, Some, None, Ok, true, false, length, slice_index};
ghost use Rattle.eng_cols.specs.declared.column.Column.{Column};
ghost use Rattle.eng_cols.specs.Cols.{ColumnState, HasDeviceOn};
ghost use Rattle.eng_cols.specs.Contents.{Contents, Agrees, AnyStripe, InSync};
ghost use Rattle.lay_core.specs.Layout.{Shape, Blocks};
ghost use Rattle.raid_label.specs.declared.label.Label.{Label};
ghost use Rattle.raid_label.specs.Bytes.{IsInRange, IsHeld};
ghost use Rattle.raid_map.specs.Stops.{Stored, MayHold, IsImage};
ghost use Rattle.top_open.specs.declared.fronts.Front.{Front};
ghost use Rattle.top_open.specs.declared.plan.Needs.{Needs};
ghost use Rattle.top_open.specs.declared.plan.Plan.{Plan};
ghost use Rattle.top_open.specs.Labels.{newest_below, shape_refusal};
ghost use Rattle.top_open.specs.Opening.{Opened, counter_refusal, opened_in};
ghost use Rattle.top_open.specs.Plan.{IsPlan, sectors_for};
ghost use Rattle.top_open.specs.Steps.{is_unlabelled};
ghost use Rattle.top_rounds.specs.Labels.{Seating, seating_in, seating_of, with_round};
ghost use Rattle.raid_adopt.specs.Rounds.{Event, IsLabelOf, MayBegin, RoundRun};
ghost use Rattle.raid_adopt.specs.Writes.{AreAtRest, AreSettledBehind, RowEvent, RowsRun};
ghost use Rattle.raid_adopt.specs.Found.{AreAllRead, AreFrontsIn, AreReopened, AreSettled, HaveLabels, IsRound};

/// A law: where the newest label is one of a round, and the device of each column of that round has a label of its column,
/// of whatever round, an opening that adopts finds the columns with which the round began.
pub fn an_opening_that_adopts_finds_the_round()
    ensures { (q : Needs) (p : Plan) (present : List Bool) (sizes : List ℕ) (fronts : List Front)
        (o : Opened) (began : List Column) (l : Label)
        → IsPlan p → q.adopts ≡ true → opened_in q p present sizes fronts ≡ Ok o
        → o.newest ≡ Some l → IsRound p present began l → HaveLabels began l fronts
        → (o.rows ≡ l.rows) × AreReopened l began o.columns }
{}

/// A law: wherever a round is stopped, and whatever the stop leaves, an opening that adopts finds the columns with which
/// the round began, unless no label of the round is left; then each sector is as the stop may have left it before the
/// round. Of the sectors behind the labels it is so in either case: so each unit that isn't missing holds what it held.
pub fn a_stop_within_a_round_is_adopted()
    ensures columns { (q : Needs) (p : Plan) (present : List Bool) (sizes : List ℕ)
        (fronts : List Front) (o : Opened) (began : List Column) (r : Label)
        (start now : ℕ → Stored) (events : List Event) (image : Contents) (c d : ℕ) (l : Label)
        → IsPlan p → q.adopts ≡ true → IsRound p present began r → IsInRange r → IsHeld r
        → MayBegin r began start → RoundRun r began start events now → IsImage now image
        → AreFrontsIn image began fronts → opened_in q p present sizes fronts ≡ Ok o
        → o.newest ≡ Some l → HasDeviceOn began c d → IsLabelOf r c (image d 0)
        → (o.rows ≡ r.rows) × AreReopened r began o.columns }
    ensures before { (began : List Column) (r : Label) (start now : ℕ → Stored)
        (events : List Event) (image : Contents)
        → MayBegin r began start → RoundRun r began start events now → IsImage now image
        → (d n : ℕ) → MayHold (start d) n (image d n)
        ⊎ ((n ≡ 0) × (c : ℕ) × HasDeviceOn began c d × IsLabelOf r c (image d 0)) }
    ensures blocks { (y : Shape) (began : List Column) (cols : List ColumnState) (blocks : Blocks)
        (r : Label) (start now : ℕ → Stored) (events : List Event) (image : Contents)
        → MayBegin r began start → RoundRun r began start events now → IsImage now image
        → ((x : Contents) → IsImage start x → Agrees y x cols blocks AnyStripe)
        → Agrees y image cols blocks AnyStripe }
{}

/// A law: an opening that adopts isn't refused where the newest label is one of a round, the configuration's shape is that of
/// the labels, and each device in use has a label of its column and is large enough.
pub fn an_array_that_was_stopped_is_opened()
    ensures { (q : Needs) (p : Plan) (present : List Bool) (sizes : List ℕ) (fronts : List Front)
        (began : List Column) (l : Label)
        → IsPlan p → q.excused ≡ None → IsRound p present began l → HaveLabels began l fronts
        → ((c d : ℕ) → HasDeviceOn began c d → sectors_for p l.rows ≤ slice_index sizes d)
        → is_unlabelled q (length present) fronts ≡ false
        → newest_below fronts (length fronts) ≡ Some l
        → shape_refusal p (length present) l ≡ None → counter_refusal q l ≡ None
        → (o : Opened) × (opened_in q p present sizes fronts ≡ Ok o) × (o.newest ≡ Some l) }
{}

/// A law: the columns of an opening are such as a round may be begun with, by a label that says them.
pub fn columns_of_an_opening_are_those_of_a_round()
    ensures { (q : Needs) (p : Plan) (present : List Bool) (sizes : List ℕ) (fronts : List Front)
        (o : Opened) (l r : Label)
        → opened_in q p present sizes fronts ≡ Ok o → o.newest ≡ Some l → length present ≤ 32
        → seating_in r ≡ seating_of o.columns → IsRound p present o.columns r }
{}

/// A law: a round may begin on an array that was opened by its labels, and whose devices have nothing logged, where its
/// counter is greater than the newest's.
pub fn a_round_may_begin_on_an_opened_array()
    ensures { (q : Needs) (p : Plan) (present : List Bool) (sizes : List ℕ) (fronts : List Front)
        (o : Opened) (l : Label) (counter clean : ℕ) (seating : Seating) (start : ℕ → Stored)
        → opened_in q p present sizes fronts ≡ Ok o → o.newest ≡ Some l → l.counter < counter
        → AreSettled start → AreAllRead start fronts
        → MayBegin (with_round l counter clean seating) o.columns start }
{}

/// A law: behind a round, whole or stopped, another may begin whose counter is greater, on the same columns or on some of
/// them; so what holds of one stopped round holds of rounds one behind the other.
pub fn a_round_may_follow_another()
    ensures { (began next : List Column) (r : Label) (start now : ℕ → Stored) (events : List Event)
        (counter clean : ℕ) (seating : Seating)
        → IsInRange r → IsHeld r → ((c d : ℕ) → HasDeviceOn began c d → c < 32)
        → ((c k d : ℕ) → HasDeviceOn began c d → HasDeviceOn began k d → c ≡ k)
        → MayBegin r began start → RoundRun r began start events now
        → ((d n : ℕ) → MayHold (now d) n ((now d).now n)) → r.counter < counter
        → ((c d : ℕ) → HasDeviceOn next c d → HasDeviceOn began c d)
        → MayBegin (with_round r counter clean seating) next now }
{}

/// A law, of all of these together: an array is opened by its labels, and stopped within a round that says its columns, with a
/// greater counter, and nothing else was done to it. However the round was stopped, and whatever that leaves, an opening that
/// adopts finds its rows and its columns again, if one label of the round is left.
pub fn an_array_that_was_opened_and_stopped_is_adopted()
    ensures { (p : Plan) (present : List Bool) (first q : Needs) (sizes later : List ℕ)
        (read fronts : List Front) (old o : Opened) (l k : Label) (counter clean : ℕ)
        (start now : ℕ → Stored) (events : List Event) (image : Contents) (c d : ℕ)
        → IsPlan p → length present ≤ 32
        → opened_in first p present sizes read ≡ Ok old → old.newest ≡ Some l
        → l.counter < counter → AreSettled start → AreAllRead start read
        → IsInRange (with_round l counter clean (seating_of old.columns))
        → IsHeld (with_round l counter clean (seating_of old.columns))
        → RoundRun (with_round l counter clean (seating_of old.columns)) old.columns start events now
        → IsImage now image → AreFrontsIn image old.columns fronts
        → q.adopts ≡ true → opened_in q p present later fronts ≡ Ok o → o.newest ≡ Some k
        → HasDeviceOn old.columns c d
        → IsLabelOf (with_round l counter clean (seating_of old.columns)) c (image d 0)
        → (o.rows ≡ old.rows)
        × AreReopened (with_round l counter clean (seating_of old.columns)) old.columns o.columns }
{}

/// A law, of a run without a map: wherever it is stopped, and whatever the stop leaves, the array is in sync if the newest label
/// that is left is clean. While the opening round is written it is as it was; behind the settles that follow that round the newest
/// label is one of it, so it isn't clean; and where each device in use was settled behind the rows that it got, an array that is
/// in sync stays so while the closing round is written.
pub fn a_clean_label_stands_over_an_array_in_sync()
    ensures opening { (y : Shape) (cols : List ColumnState) (began : List Column) (r : Label)
        (start now : ℕ → Stored) (events : List Event) (image : Contents)
        → MayBegin r began start → RoundRun r began start events now → IsImage now image
        → ((x : Contents) → IsImage start x → InSync y x cols) → InSync y image cols }
    ensures rows { (q : Needs) (p : Plan) (present : List Bool) (sizes : List ℕ)
        (fronts : List Front) (o : Opened) (began : List Column) (r : Label)
        (start opened now : ℕ → Stored) (events : List Event) (writes : List RowEvent)
        (image : Contents) (c d : ℕ) (l : Label)
        → IsRound p present began r → IsInRange r → IsHeld r → MayBegin r began start
        → RoundRun r began start events opened → AreSettledBehind began events
        → RowsRun opened writes now → IsImage now image → AreFrontsIn image began fronts
        → opened_in q p present sizes fronts ≡ Ok o → o.newest ≡ Some l
        → HasDeviceOn began c d → l.clean ≡ r.clean }
    ensures closing { (y : Shape) (cols : List ColumnState) (ended : List Column) (r : Label)
        (opened rest now : ℕ → Stored) (writes : List RowEvent) (events : List Event)
        (image : Contents)
        → RowsRun opened writes rest → AreAtRest cols writes
        → InSync y (λ d. (rest d).now) cols
        → MayBegin r ended rest → RoundRun r ended rest events now → IsImage now image
        → InSync y image cols }
{}
