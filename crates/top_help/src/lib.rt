//! The program's own texts: its help and its version.
//!
//! [`put_topic`] prints them as they are, without a status behind them.
#![tactic(auto)]

ghost use Rattle.std.specs.Prelude.{◌≡◌, ◌≤◌, is_ok, OnErr};
ghost use Rattle.blk_disk.specs.Disk.{Rose};
ghost use Rattle.raid_bay.specs.Sink.{Puts};
ghost use Rattle.top_help.specs.Topics.{IsNarrow, topic_text};

use blk_disk::Failed;
use raid_bay::Sink;
use top_words::Topic;

/// Which words there are, what each does, and two examples, in lines of at most 80 bytes. The
/// letters are grouped as raidctl(8) describes them.
pub const HELP: &str = "\
usage: raidctl CONF ACTION [OPTION ..]

CONF is the configuration of an array. With --scan it is a list of components,
one name a line, and with --sim the requests to one simulated disk.

Labels and status:
  -I SERIAL       writes the first labels, with this serial number
  -s              prints how columns, spares and parity stand
  -g COMP         prints the label of a component
  -G              prints the configuration in its canonical form
  --scan          prints which arrays the components of a list make up

Layouts, for which no component is opened:
  --layout        prints where each unit of each stripe stands, what columns
                  have of them, and what rebuilds and writes cost

Components:
  -f COMP         fails a component
  -F COMP         fails a component, and rebuilds its column onto a spare or
                  into spare places
  -R COMP         rebuilds the column of a component on its own disk
  --resume        goes on with a rebuild that --limit ended

Parity:
  -i              writes the parity of all stripes
  -m              prints how many regions of the parity map are marked
  -p              checks parity
  -P              checks parity, and rewrites it where it is wrong

Clients:
  --io SCRIPT     runs a script; with -F, -R or --resume, beside the rebuild
  --sweep SEED    runs clients that are drawn from SEED; this overwrites blocks
  --sim QUEUE     prints in which order, and when, one disk serves requests;
                  QUEUE is fifo, sstf or scan

Options:
  --graphs FILE   access graphs that the script names, with --io
  --trace         prints each event too, with --io
  -w N            serves with N workers, 0 to 16, else with 4;
                  with --io, --sweep, -F, -R and --resume
  --map           keeps a parity map: after a stop only the regions are swept
                  that were written; with --io, --sweep, -F, -R and --resume
  --adopt         takes in components with older labels that the newest names,
                  behind a call that was killed as it wrote them;
                  with -s, -p, -P, -f, -F and -R
  --limit M       rebuilds at most M stripes, and onto a device alone;
                  with -F, -R and --resume
  --rows R        tells the layout over R rows, with --layout
  --clients C     draws C clients, 1 to 16, with --sweep
  --ops N         draws N operations for each client, 0 to 2048, with --sweep
  -h, --help      prints this text
  -V, --version   prints which program this is

COMP is the name of one of the configuration's disks, and for -g also that of a
spare. SERIAL and SEED are 0 to 4294967295, M is 1 to 4294967295. R is 1 to
1048576, and what the layout can have.

Examples:
  raidctl conf --io script --graphs graphs -w 2
                  runs a script and its access graphs, with two workers
  raidctl conf -F d3 --io script
                  fails d3, and rebuilds its column while the script runs

All other output ends with a line that says how the call ended, `status ok` or
why it didn't; the exit number is 0 or that of the status.
";

/// The program's version, and the kit with whose prover it was proved.
pub const VERSION: &str = "raidctl 0.1 (Nirkwafo), proved with rattle-kit-13f\n";

/// The text of a topic.
#[tactic(auto, unfolding(crate::specs::Topics::topic_text))]
pub fn topic_text(topic: Topic) -> &'static str
    ensures { result.now ≡ topic_text topic }
{
    match topic {
        Topic::Help => HELP,
        Topic::Version => VERSION,
    }
}

/// The help fits on a screen of 80 columns.
pub fn the_help_is_narrow()
    ensures { IsNarrow (topic_text Topic.Help) }
{}

/// Prints the text of a topic by one call of the sink.
///
/// Failed, only where the sink's count of faults rose, has put a front of the text.
pub fn put_topic<K: Sink>(topic: Topic, out: &mut K) -> Result<(), Failed>
    ensures output { K.tells →
        Puts (is_ok result) (K.output out.old) (topic_text topic) (K.output out.new) }
    ensures later { K.faults out.old ≤ K.faults out.new }
    ensures cause { OnErr result (Rose (K.faults out.old) (K.faults out.new)) }
{
    out.put(topic_text(topic).as_bytes())
}
