//! How an array stands.
ghost use Rattle.std.specs.Prelude.{◌≡◌, ◌≤◌, is_ok, OnErr};
ghost use Rattle.blk_disk.specs.Disk.{Rose};
ghost use Rattle.raid_bay.specs.Sink.{Puts};
ghost use Rattle.raid_conf.specs.Form.{IsConf};
ghost use Rattle.top_open.specs.Opening.{opened_seen};
ghost use Rattle.top_looks.specs.Show.{parity_line, show_text};

use crate::columns::put_columns;
use crate::spares::put_spares;
use blk_disk::Failed;
use raid_bay::Sink;
use raid_conf::Conf;
use raid_label::Label;
use top_open::{Front, Opened};

fn parity_line(newest: &Option<Label>, marked: bool) -> &'static [u8]
    ensures { result.now ≡ parity_line newest.now marked }
{
    match newest {
        Some(label) if label.clean == 1 && !marked => b"parity clean\n",
        Some(_) => b"parity dirty\n",
        None => b"parity unlabelled\n",
    }
}

/// Prints how an array stands as it was opened: a line for each column, one for each spare, and
/// one for the parity.
///
/// `column C NAME STATE` has the name that the configuration gives the column's disk, `absent`
/// where there is none. STATE is `optimal` where that disk serves the column, `spared J` where
/// spare J does, `rebuilding M` where it is filling and M of its stripes are done, `spread` where the
/// spare places of the other columns serve it, else `failed`.
/// `spare J NAME STATE` has the first that holds of `used`, the labels name it for a column;
/// `failed`, its label couldn't be read; `small`, it has fewer sectors than the rows need; and
/// else `free`. Without labels no spare is used, nor failed. The parity is `clean` where the newest
/// label is and the parity map has no region `marked`, else `dirty`; or it is `unlabelled`.
///
/// Sizes and fronts are those of the columns' disks and then of the spares. One that isn't there
/// counts as size 0, or as read. Failed, only where the sink's count of faults rose, has put a
/// front of the text.
#[tactic(auto, unfolding(crate::specs::Show::show_text, crate::specs::Steps::columns_text, crate::specs::Steps::spares_text))]
pub fn put_show<K: Sink>(
    conf: &Conf,
    opened: &Opened,
    sizes: &[u64],
    fronts: &[Front],
    marked: bool,
    out: &mut K,
) -> Result<(), Failed>
    requires { IsConf conf.now }
    ensures output { K.tells → Puts (is_ok result) (K.output out.old)
        (show_text conf.now (opened_seen opened.now) sizes.now fronts.now marked)
        (K.output out.new) }
    ensures later { K.faults out.old ≤ K.faults out.new }
    ensures cause { OnErr result (Rose (K.faults out.old) (K.faults out.new)) }
{
    put_columns(&conf.disks, &opened.columns, out)?;
    put_spares(conf, opened, sizes, fronts, out)?;
    out.put(parity_line(&opened.newest, marked))
}
