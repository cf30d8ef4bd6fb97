//! What the end of a run leaves of the array's contents. These functions do nothing: what they
//! ensure is so of every layout and all columns.
ghost use Rattle.std.specs.Prelude.{◌≡◌, ◌≤◌, ℕ, List, Some, true, count_by, slice_get, length};
ghost use Rattle.lay_core.specs.Layout.{Shape, Blocks, IsLayout};
ghost use Rattle.eng_cols.specs.declared.column.Column.{Column};
ghost use Rattle.eng_cols.specs.declared.column.Column.TheVariants as column;
ghost use Rattle.eng_cols.specs.Cols.{ColumnState, Dead, is_set_filling, is_set_spread, InOrder};
ghost use Rattle.eng_cols.specs.Fewer.{DieApart};
ghost use Rattle.eng_cols.specs.declared.spot.Loss.{Loss};
ghost use Rattle.eng_cols.specs.Laws.{HaveSpares};
ghost use Rattle.eng_cols.specs.Seats.{is_available, seat};
ghost use Rattle.eng_cols.specs.Lost.{IsLost, NotLost};
ghost use Rattle.eng_cols.specs.Contents.{Contents, Agrees, AnyStripe};
ghost use Rattle.eng_cols.specs.Deaths.{Dies};
ghost use Rattle.top_close.specs.Closes.{ClosesAs};
ghost use Rattle.top_close.specs.Dying.{AnyCause, OnlyDie, HoldSame};
ghost use Rattle.eng_cols.specs.Stripes.{states_of};
ghost use Rattle.top_close.specs.Losses.{LossLacksUnits};

/// Columns that die, however many at once, bring no unit back and move none; so what agreed before
/// still agrees, and an array that isn't lost after their deaths wasn't lost before. Nor do they
/// make a column filling or spread. Where one is filling still, no spread one may have died: else it
/// has other stripes, and is to be read anew.
pub fn deaths_bring_no_unit_back()
    ensures units { (y : Shape) (old new : List ColumnState) (s i : ℕ) → OnlyDie old new →
        is_available y new s i ≡ true →
        (is_available y old s i ≡ true) × (seat y new s i ≡ seat y old s i) }
    ensures agrees { (y : Shape) (contents : Contents) (old new : List ColumnState)
        (blocks : Blocks) → OnlyDie old new →
        Agrees y contents old blocks AnyStripe → Agrees y contents new blocks AnyStripe }
    ensures lost { (y : Shape) (old new : List ColumnState) → OnlyDie old new →
        NotLost y new → NotLost y old }
    ensures columns { (y : Shape) (old new : List Column) → Dies AnyCause old new →
        DieApart old new → count_by is_set_filling old ≤ 1 →
        OnlyDie (states_of y old) (states_of y new) }
    ensures filling { (old new : List Column) → Dies AnyCause old new →
        count_by is_set_filling new ≤ count_by is_set_filling old }
    ensures spread { (old new : List Column) → Dies AnyCause old new →
        count_by is_set_spread new ≤ count_by is_set_spread old }
{}

/// Whether contents agree with blocks goes by what the devices of the columns hold.
pub fn agreement_goes_by_the_devices_in_use()
    ensures { (y : Shape) (old new : Contents) (cols : List ColumnState)
        (blocks : Blocks) → HoldSame cols old new →
        Agrees y old cols blocks AnyStripe → Agrees y new cols blocks AnyStripe }
{}

/// Columns that were being rebuilt are judged as the run ends: what agreed before still agrees, an
/// array that isn't lost then wasn't lost before, and a dead column stays so.
pub fn columns_close_without_harm()
    ensures agrees { (y : Shape) (contents : Contents) (cols : List ColumnState)
        (kept : List Column) (blocks : Blocks) → ClosesAs y cols kept →
        count_by is_set_filling kept ≤ 1 → Agrees y contents cols blocks AnyStripe →
        Agrees y contents (states_of y kept) blocks AnyStripe }
    ensures lost { (y : Shape) (cols : List ColumnState) (kept : List Column) →
        ClosesAs y cols kept → count_by is_set_filling kept ≤ 1 →
        NotLost y (states_of y kept) → NotLost y cols }
    ensures dead { (y : Shape) (cols : List ColumnState) (kept : List Column) (c : ℕ) →
        ClosesAs y cols kept → slice_get cols c ≡ Some Dead → slice_get kept c ≡ Some column.Dead }
{}

/// On each of the two columns of a loss the lost stripe lacks a unit: the column is dead, or it is
/// filling and that stripe is left, or it is spread, and the stripe is left there or the column of
/// its spare place is one of the first two.
pub fn both_columns_of_a_loss_lack_a_unit()
    ensures { (y : Shape) (cols : List ColumnState) (loss : Loss) → IsLayout y →
        length cols ≡ y.columns → InOrder cols → HaveSpares y cols →
        IsLost y cols loss → LossLacksUnits y cols loss }
{}
