//! How the columns stand.
ghost use Rattle.std.specs.Prelude.{◌≡◌, ◌≤◌, ◌<◌, ◌+◌, ◌++◌, All, is_ok, length, OnErr};
ghost use Rattle.blk_disk.specs.Disk.{Rose};
ghost use Rattle.raid_bay.specs.Sink.{Puts};
ghost use Rattle.raid_conf.specs.Form.{IsDiskName, disk_word};
ghost use Rattle.top_looks.specs.Show.{column_text};
ghost use Rattle.top_looks.specs.Steps.{column_line, columns_text, filling_state, live_state, column_state};

use blk_disk::Failed;
use eng_cols::Column;
use put_line::Line;
use raid_bay::Sink;
use raid_conf::Names;

fn disk_word(name: &str) -> &[u8]
    ensures { result.now ≡ disk_word name.now }
{
    if name.is_empty() {
        b"absent"
    } else {
        name.as_bytes()
    }
}

// Adds which device serves a column of so many.
#[tactic(auto, unfolding(crate::specs::Steps::live_state))]
fn push_live(line: &mut Line, columns: u32, device: u32)
    requires { length line.old ≤ 400 }
    ensures text { line.new ≡ line.old ++ live_state columns device }
    ensures short { length line.new ≤ length line.old + 50 }
{
    if device < columns {
        line.push(b"optimal");
    } else {
        line.push(b"spared ");
        line.push_number(device - columns);
    }
}

// Adds how much of a column is rebuilt.
fn push_filling(line: &mut Line, done: u32)
    requires { length line.old ≤ 400 }
    ensures text { line.new ≡ line.old ++ filling_state done }
    ensures short { length line.new ≤ length line.old + 60 }
{
    line.push(b"rebuilding ");
    line.push_number(done);
}

// Adds how a column of so many is served.
#[tactic(auto, unfolding(crate::specs::Steps::live_state, crate::specs::Steps::filling_state))]
fn push_state(line: &mut Line, columns: u32, column: Option<Column>)
    requires { length line.old ≤ 400 }
    ensures text { line.new ≡ line.old ++ column_state columns column }
    ensures short { length line.new ≤ length line.old + 60 }
{
    match column {
        Some(Column::Live { device }) => push_live(line, columns, device),
        Some(Column::Spread) => line.push(b"spread"),
        Some(Column::Filling { done, .. }) => push_filling(line, done),
        Some(Column::Dead) | None => line.push(b"failed"),
    }
}

#[tactic(auto, unfolding(crate::specs::Steps::column_line))]
fn set_column(line: &mut Line, columns: u32, c: u32, name: &[u8], column: Option<Column>)
    requires { length name.now ≤ 255 }
    ensures { line.new ≡ column_line columns c name.now column }
{
    line.clear();
    line.push(b"column ");
    line.push_number(c);
    line.push(b" ");
    line.push(name);
    line.push(b" ");
    push_state(line, columns, column);
    line.push(b"\n");
}

#[tactic(auto, unfolding(crate::specs::Steps::column_line), using(crate::proofs::ShortNames::disk_words_are_short))]
fn put_column<K: Sink>(disks: &Names, columns: &[Column], c: u32, out: &mut K) -> Result<(), Failed>
    requires names { All IsDiskName disks.now }
    requires within { c < length disks.now }
    ensures output { K.tells → Puts (is_ok result) (K.output out.old)
        (column_text disks.now columns.now c) (K.output out.new) }
    ensures later { K.faults out.old ≤ K.faults out.new }
    ensures cause { OnErr result (Rose (K.faults out.old) (K.faults out.new)) }
{
    let mut line = Line::new();
    let column = columns.get(c as usize).copied();
    set_column(&mut line, disks.len(), c, disk_word(disks.get(c)), column);
    line.put(out)
}

/// Prints the lines of the columns, whose disks have these names.
pub(crate) fn put_columns<K: Sink>(
    disks: &Names,
    columns: &[Column],
    out: &mut K,
) -> Result<(), Failed>
    requires { All IsDiskName disks.now }
    ensures output { K.tells → Puts (is_ok result) (K.output out.old)
        (columns_text disks.now columns.now) (K.output out.new) }
    ensures later { K.faults out.old ≤ K.faults out.new }
    ensures cause { OnErr result (Rose (K.faults out.old) (K.faults out.new)) }
{
    for c in 0..disks.len() {
        put_column(disks, columns, c, out)?;
    }
    Ok(())
}
