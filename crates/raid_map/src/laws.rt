//! What holds of every run with a map, wherever it is stopped. These functions do nothing.
ghost use Rattle.std.specs.Prelude.{◌≡◌, ◌<◌, ℕ, List, Option, Bool, true, Contains, length, slice_index};
ghost use Rattle.lay_core.specs.Layout.{Shape, IsLayout};
ghost use Rattle.graph_mean.specs.declared.task.Kind.TheVariants as kind;
ghost use Rattle.graph_mean.specs.Graph.{View};
ghost use Rattle.graph_mean.specs.Task.{Aim, Missing};
ghost use Rattle.graph_lib.specs.Library.{library};
ghost use Rattle.eng_cols.specs.declared.column.Column.{Column};
ghost use Rattle.eng_cols.specs.Cols.{ColumnState, HasDevice};
ghost use Rattle.eng_cols.specs.Contents.{Contents, InSync};
ghost use Rattle.eng_cols.specs.Stripes.{states_of};
ghost use Rattle.eng_world.specs.World.{World};
ghost use Rattle.eng_world.specs.Planning.{Graphs, Promises};
ghost use Rattle.item_list.specs.ItemList.{ItemList};
ghost use Rattle.raid_recon.specs.Array.{IsArray};
ghost use Rattle.raid_map.specs.Regions.{region_of, regions_in, IsMap, IsBytesOf, Marks, is_marked, Adds};
ghost use Rattle.raid_map.specs.Stops.{IsImage};
ghost use Rattle.raid_map.specs.Mapped.{Event, Clear, Mapped, MappedRun, HasWrite, AreAskedFor, IsUsed, HasMarks, IsStart, InSyncAnyhow, UnsoundLieIn, IsLeft, IsEarlier};
ghost use Rattle.raid_map.specs.Marking.{AreMarked};
ghost use Rattle.raid_map.specs.Sweeping.{marks_stripe, MayRewrite, UnsoundAreMarked, IsSweptTo};
ghost use Rattle.raid_map.specs.Starts.{IsLeftSince};
ghost use Rattle.raid_map.specs.Asking.{ScriptMayWrite, MarksAlso, LibraryOnlyReads, AreMarkedFor, AreItemsOf};
ghost use Rattle.raid_map.specs.Union.{UnionMarks, IsUnsound};

use blk_disk::StopDisk;

/// Wherever a run is stopped before its maps are cleared, each stripe that lacks no unit and doesn't
/// sum to zero, by the columns as they were opened, lies in a region that the union marks. At the start
/// that has to be so of each image that a stop may leave, and in a region that the run marks: where the
/// array is in sync in each of them there is no such stripe, and behind a sweep of marked stripes those
/// of that sweep may be such.
pub fn what_is_unsound_is_marked()
    ensures { (y : Shape) (graphs : Graphs) (serial : ℕ) (regions : ℕ → Bool) (start now : Mapped)
        → (events : List Event) (image : Contents) (s : ℕ)
        → IsLayout y → Promises graphs → IsStart y start
        → UnsoundLieIn y serial regions start.world.columns start
        → MappedRun y graphs serial regions start events now
        → ((d : ℕ) → Contains events (Clear d) → ⊥)
        → IsLeft y now image
        → IsUnsound y start.world.columns image s
        → UnionMarks y serial start.world.columns image (region_of y.stripes s) }
{}

/// So it is by earlier columns, as the labels still name them, where some columns died before the array
/// was opened: since their devices failed, or to be rebuilt.
pub fn what_is_unsound_by_earlier_columns_is_marked()
    ensures { (y : Shape) (graphs : Graphs) (serial : ℕ) (regions : ℕ → Bool) (start now : Mapped)
        → (events : List Event) (earlier : List ColumnState) (image : Contents) (s : ℕ)
        → IsLayout y → Promises graphs → IsStart y start
        → IsEarlier earlier start.world.columns events
        → UnsoundLieIn y serial regions earlier start
        → MappedRun y graphs serial regions start events now
        → ((d : ℕ) → Contains events (Clear d) → ⊥)
        → IsLeft y now image
        → IsUnsound y earlier image s
        → UnionMarks y serial earlier image (region_of y.stripes s) }
{}

/// Wherever a run is stopped, each stripe that lacks no unit and doesn't sum to zero, by the columns
/// at the stop, lies in a region that the union marks, also once maps are cleared. At the start the
/// array has to be in sync as its devices hold it, if not in each image that a stop may leave.
pub fn what_is_unsound_at_a_stop_is_marked()
    ensures { (y : Shape) (graphs : Graphs) (serial : ℕ) (regions : ℕ → Bool) (start now : Mapped)
        → (events : List Event) (image : Contents) (s : ℕ)
        → IsLayout y → Promises graphs → IsStart y start
        → InSync y start.world.contents start.world.columns
        → UnsoundLieIn y serial regions start.world.columns start
        → MappedRun y graphs serial regions start events now
        → IsLeft y now image
        → IsUnsound y now.world.columns image s
        → UnionMarks y serial now.world.columns image (region_of y.stripes s) }
{}

/// An array that is in sync in every image that a stop may leave is such a start, whatever regions the
/// run marks: by the columns as they were opened, and by earlier ones.
pub fn an_array_in_sync_is_a_start()
    ensures opened { (y : Shape) (serial : ℕ) (regions : ℕ → Bool) (start : Mapped)
        → IsStart y start → InSyncAnyhow y start
        → InSync y start.world.contents start.world.columns
        × UnsoundLieIn y serial regions start.world.columns start }
    ensures earlier { (y : Shape) (serial : ℕ) (regions : ℕ → Bool) (cols : List ColumnState)
        → (start : Mapped) → ((x : Contents) → IsImage start.stored x → InSync y x cols)
        → UnsoundLieIn y serial regions cols start }
{}

/// Behind `mark_all` and a sweep of the stripes that a union marks a run may start, though no device
/// was settled since. Before the sweep what was unsound lay in the union; the run's regions have it,
/// and the map that was written has them. A device that is in use logs no sector meanwhile that the
/// sweep may not rewrite. Then what is unsound in some image that a stop may leave lies in the regions,
/// the union marks it there, and each device in use has the map, whatever a stop leaves of it.
pub fn marks_and_a_sweep_leave_a_start<D: StopDisk>()
    ensures { D.tells → (y : Shape) (serial : ℕ) (regions : ℕ → Bool) (map union : Marks)
        → (bytes : List ℕ) (columns marked swept : List Column) (old held new : List (Option D))
        → (start : Mapped)
        → IsLayout y → y.checks ≡ 1 → IsArray D.Disk y marked held
        → IsBytesOf map bytes → map.serial ≡ serial → map.stripes ≡ y.stripes
        → AreMarked D.Disk (length columns) bytes columns marked old held
        → union.stripes ≡ y.stripes
        → UnsoundAreMarked D.Disk y (marks_stripe union) marked held
        → IsSweptTo D.Disk y (marks_stripe union) marked held y.stripes swept new
        → ((r : ℕ) → is_marked union.marks r ≡ true → regions r ≡ true)
        → ((r : ℕ) → regions r ≡ true → is_marked map.marks r ≡ true)
        → start.world.columns ≡ states_of y swept
        → ((c d : ℕ) → HasDevice start.world.columns c d
        → IsLeftSince D.Disk (MayRewrite D.Disk y (marks_stripe union) marked held y.stripes)
        held d (start.stored d))
        → UnsoundLieIn y serial regions start.world.columns start
        × ((d : ℕ) → IsUsed start.world d
        → HasMarks serial y.stripes regions (start.stored d)) }
{}

/// The region of a stripe is one of those of a map. A map to which a sector was added marks what it
/// marked, and each region that the sector marks, if that is a map of the array.
pub fn a_union_has_what_its_maps_mark()
    ensures region { (stripes s : ℕ) → s < stripes
        → (region_of stripes s < regions_in stripes) × (region_of stripes s < 3968) }
    ensures added { (old new : Marks) (sector : List ℕ) (marks : ℕ → Bool) (r : ℕ)
        → Adds old new sector → IsMap old.serial old.stripes marks (slice_index sector)
        → r < regions_in old.stripes → marks r ≡ true → is_marked new.marks r ≡ true }
    ensures kept { (old new : Marks) (sector : List ℕ) (r : ℕ) → Adds old new sector
        → r < length old.marks → is_marked old.marks r ≡ true → is_marked new.marks r ≡ true }
{}

/// Regions in which the items of a script may write, with those of the stripes that are rebuilt, are all that a run
/// over these items and rebuilds asks for.
pub fn regions_of_a_script_are_enough()
    ensures asked { (y : Shape) (graphs : Graphs) (clients : List ItemList)
        → (regions : ℕ → Bool) (w : World)
        → AreMarkedFor y regions (ScriptMayWrite y graphs.file clients)
        → LibraryOnlyReads graphs → AreItemsOf y clients regions w
        → AreAskedFor y graphs regions w }
    ensures marked { (y : Shape) (file : ℕ → View) (clients : List ItemList)
        → (old new : Marks) → old.stripes ≡ y.stripes
        → MarksAlso (ScriptMayWrite y file clients) old new
        → AreMarkedFor y (is_marked new.marks) (ScriptMayWrite y file clients) }
{}

/// The library's graph of a read has no write, whatever is missing.
pub fn reads_of_the_library_have_no_write()
    ensures { (t : Aim) (missing : Missing) (target : Bool) → t.kind ≡ kind.Read
        → HasWrite (library t missing target) → ⊥ }
{}
