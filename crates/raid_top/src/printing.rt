//! What is printed of an outcome.
ghost use Rattle.std.specs.Prelude.{◌≡◌, ◌≤◌, ◌++◌, length, is_ok, OnErr, []};
ghost use Rattle.blk_disk.specs.Disk.{Rose};
ghost use Rattle.raid_bay.specs.Sink.{Puts};
ghost use Rattle.raid_conf.specs.Form.{IsConf};
ghost use Rattle.raid_script.specs.Replies.{StandFor};
ghost use Rattle.top_looks.specs.Labels.{label_text};
ghost use Rattle.top_open.specs.Opening.{opened_seen};
ghost use Rattle.top_run.specs.Works.{service_seen};
ghost use Rattle.top_status.specs.Status.{status_of_loss, status_text};
ghost use Rattle.top_words.specs.Asked.{profile_of};
ghost use Rattle.top_words.specs.Views.{action_seen};
ghost use Rattle.raid_top.specs.Arrays.{ending_seen};
ghost use Rattle.raid_top.specs.Outcome.{Ran, Did, outcome_text, status_of_act};
ghost use Rattle.raid_top.specs.Words.{rebuild_text, run_text, script_text, status_of_done};
ghost use Rattle.raid_top.specs.Shown.{is_any_marked, shown_text};
ghost use Rattle.raid_top.specs.Views.{CanBePrinted, outcome_seen, shown_of, status_came};
ghost use Rattle.std.specs.Option.{option_map_or};
ghost use Rattle.raid_script.specs.Summary.{summary_text};

use crate::came::{Came, Ended, Shown};
use crate::rebuilt::put_rebuilt;
use blk_disk::Failed;
use eng_cols::Loss;
use raid_bay::Sink;
use raid_conf::Conf;
use raid_script::{put_history, put_replies, put_summary, put_trace};
use top_acts::{Done, put_done};
use top_close::Ending;
use top_looks::{Marked, put_label, put_map, put_show};
use top_open::Front;
use top_run::Service;
use top_status::{Status, put_ending, put_status};
use top_words::{Action, Drawing};

// Prints replies, history and trace.
fn put_script<K: Sink>(service: &Service, out: &mut K) -> Result<(), Failed>
    requires { StandFor service.now.clients.items service.now.replies.items
        service.now.sectors }
    ensures output { K.tells → Puts (is_ok result) (K.output out.old)
        (script_text (service_seen service.now)) (K.output out.new) }
    ensures later { K.faults out.old ≤ K.faults out.new }
    ensures cause { OnErr result (Rose (K.faults out.old) (K.faults out.new)) }
{
    put_replies(&service.clients, &service.replies, &service.sectors, out)?;
    put_history(&service.history, out)?;
    put_trace(&service.trace, out)
}

// Prints the sums of a sweep, and nothing where the array was lost.
fn put_sweep<K: Sink>(service: &Service, out: &mut K) -> Result<(), Failed>
    requires few { length service.now.clients.items ≤ 16 }
    requires stand { StandFor
        service.now.clients.items service.now.replies.items service.now.sectors }
    ensures output { K.tells → Puts (is_ok result) (K.output out.old)
        (option_map_or (λ loss. []) service.now.lost (summary_text
        (service_seen service.now).clients (service_seen service.now).replies
        (service_seen service.now).sectors)) (K.output out.new) }
    ensures later { K.faults out.old ≤ K.faults out.new }
    ensures cause { OnErr result (Rose (K.faults out.old) (K.faults out.new)) }
{
    match service.lost {
        Some(_) => Ok(()),
        None => put_summary(&service.clients, &service.replies, &service.sectors, out),
    }
}

// Prints what is told of a script, and of a rebuild, if there was one.
fn put_clients<K: Sink>(service: &Service, out: &mut K) -> Result<(), Failed>
    requires { StandFor service.now.clients.items service.now.replies.items
        service.now.sectors }
    ensures output { K.tells → Puts (is_ok result) (K.output out.old)
        (script_text (service_seen service.now) ++ rebuild_text service.now.line)
        (K.output out.new) }
    ensures later { K.faults out.old ≤ K.faults out.new }
    ensures cause { OnErr result (Rose (K.faults out.old) (K.faults out.new)) }
{
    put_script(service, out)?;
    put_rebuilt(service.line, out)
}

// Prints the sums of clients that were drawn, or else what is told of a script and a rebuild.
fn put_run_of<K: Sink>(drawn: Option<Drawing>, service: &Service, out: &mut K) -> Result<(), Failed>
    requires few { length service.now.clients.items ≤ 16 }
    requires stand { StandFor
        service.now.clients.items service.now.replies.items service.now.sectors }
    ensures output { K.tells → Puts (is_ok result) (K.output out.old)
        (run_text drawn (service_seen service.now)) (K.output out.new) }
    ensures later { K.faults out.old ≤ K.faults out.new }
    ensures cause { OnErr result (Rose (K.faults out.old) (K.faults out.new)) }
{
    match drawn {
        Some(_) => put_sweep(service, out),
        None => put_clients(service, out),
    }
}

// Prints what a run tells, but for its end.
fn put_service<K: Sink>(action: Action<'_>, service: &Service, out: &mut K) -> Result<(), Failed>
    requires few { length service.now.clients.items ≤ 16 }
    requires stand { StandFor
        service.now.clients.items service.now.replies.items service.now.sectors }
    ensures output { K.tells → Puts (is_ok result) (K.output out.old)
        (run_text (profile_of (action_seen action.entry)).drawn (service_seen service.now))
        (K.output out.new) }
    ensures later { K.faults out.old ≤ K.faults out.new }
    ensures cause { OnErr result (Rose (K.faults out.old) (K.faults out.new)) }
{
    put_run_of(action.profile().drawn, service, out)
}

// Prints what a run tells, the columns that are dead in the end, and the status.
fn put_run<K: Sink>(
    action: Action<'_>,
    service: &Service,
    status: &Status,
    out: &mut K,
) -> Result<(), Failed>
    requires few { length service.now.clients.items ≤ 16 }
    requires stand { StandFor
        service.now.clients.items service.now.replies.items service.now.sectors }
    requires status { status.now ≡ status_of_loss service.now.lost }
    ensures output { K.tells → Puts (is_ok result) (K.output out.old)
        (outcome_text (Ran (action_seen action.entry) (service_seen service.now)))
        (K.output out.new) }
    ensures later { K.faults out.old ≤ K.faults out.new }
    ensures cause { OnErr result (Rose (K.faults out.old) (K.faults out.new)) }
{
    put_service(action, service, out)?;
    put_ending(&service.columns, status, out)
}

// Prints the line of what was done, if it has one, the columns that are dead in the end, and the status.
fn put_act<K: Sink>(act: &Done, ending: &Ending, status: &Status, out: &mut K) -> Result<(), Failed>
    requires status { status.now ≡ status_of_done act.now ending.now.lost }
    ensures output { K.tells → Puts (is_ok result) (K.output out.old)
        (outcome_text (Did act.now (ending_seen ending.now))) (K.output out.new) }
    ensures later { K.faults out.old ≤ K.faults out.new }
    ensures cause { OnErr result (Rose (K.faults out.old) (K.faults out.new)) }
{
    put_done(act, out)?;
    put_ending(&ending.columns, status, out)
}

fn is_any_marked(map: Option<Marked>) -> bool
    ensures { result ≡ is_any_marked map }
{
    match map {
        Some(map) => map.marked > 0,
        None => false,
    }
}

// Prints the parity map of an array, where that is asked for, else how it was opened.
fn put_looked<K: Sink>(map: bool, conf: &Conf, shown: &Shown, out: &mut K) -> Result<(), Failed>
    requires conf { IsConf conf.now }
    ensures output { K.tells → Puts (is_ok result) (K.output out.old)
        (shown_text map conf.now (opened_seen shown.now.opened) shown.now.sizes.items
        shown.now.fronts.items shown.now.map) (K.output out.new) }
    ensures later { K.faults out.old ≤ K.faults out.new }
    ensures cause { OnErr result (Rose (K.faults out.old) (K.faults out.new)) }
{
    if map {
        return put_map(shown.map, out);
    }
    let Shown {
        opened,
        sizes,
        fronts,
        map,
    } = shown;
    put_show(conf, opened, sizes, fronts, is_any_marked(*map), out)
}

// Prints what is shown of an array, and the status.
fn put_shown<K: Sink>(
    action: Action<'_>,
    conf: &Conf,
    shown: &Shown,
    status: &Status,
    out: &mut K,
) -> Result<(), Failed>
    requires conf { IsConf conf.now }
    ensures output { K.tells → Puts (is_ok result) (K.output out.old)
        (shown_of (action_seen action.entry) conf.now shown.now ++ status_text status.now)
        (K.output out.new) }
    ensures later { K.faults out.old ≤ K.faults out.new }
    ensures cause { OnErr result (Rose (K.faults out.old) (K.faults out.new)) }
{
    put_looked(action.profile().map, conf, shown, out)?;
    put_status(status, out)
}

fn put_front<K: Sink>(front: &Front, status: &Status, out: &mut K) -> Result<(), Failed>
    ensures output { K.tells → Puts (is_ok result) (K.output out.old)
        (label_text front.now ++ status_text status.now) (K.output out.new) }
    ensures later { K.faults out.old ≤ K.faults out.new }
    ensures cause { OnErr result (Rose (K.faults out.old) (K.faults out.new)) }
{
    put_label(front, out)?;
    put_status(status, out)
}

fn put_text<K: Sink>(text: &[u8], status: &Status, out: &mut K) -> Result<(), Failed>
    ensures output { K.tells → Puts (is_ok result) (K.output out.old)
        (text.now ++ status_text status.now) (K.output out.new) }
    ensures later { K.faults out.old ≤ K.faults out.new }
    ensures cause { OnErr result (Rose (K.faults out.old) (K.faults out.new)) }
{
    out.put(text)?;
    put_status(status, out)
}

// The status of what was done, where the array isn't lost.
fn status_of_act(act: Done) -> Status
    ensures { result ≡ status_of_act act }
{
    match act {
        Done::Check(0) => Status::Ok,
        Done::Check(count) => Status::NotInSync(count),
        _ => Status::Ok,
    }
}

fn status_of_done(act: Done, lost: Option<Loss>) -> Status
    ensures { result ≡ status_of_done act lost }
{
    match lost {
        None => status_of_act(act),
        Some(_) => Status::of_loss(lost),
    }
}

pub(crate) fn status_of(came: &Came) -> Status
    ensures { result ≡ status_came came.now }
{
    match came {
        Came::Ran(service) => Status::of_loss(service.lost),
        Came::Did(act, ending) => status_of_done(*act, ending.lost),
        Came::Shows(_) | Came::ShowsLabel(_) | Came::Prints(_) => Status::Ok,
    }
}

pub(crate) fn put_ended<K: Sink>(
    ended: &Ended<'_>,
    status: &Status,
    out: &mut K,
) -> Result<(), Failed>
    requires conf { IsConf ended.now.conf }
    requires printed { CanBePrinted ended.now.came }
    requires status { status.now ≡ status_came ended.now.came }
    ensures output { K.tells → Puts (is_ok result) (K.output out.old)
        (outcome_text (outcome_seen (action_seen ended.now.action) ended.now.conf ended.now.came))
        (K.output out.new) }
    ensures later { K.faults out.old ≤ K.faults out.new }
    ensures cause { OnErr result (Rose (K.faults out.old) (K.faults out.new)) }
{
    match &ended.came {
        Came::Ran(service) => put_run(ended.action, service, status, out),
        Came::Did(act, ending) => put_act(act, ending, status, out),
        Came::Shows(shown) => put_shown(ended.action, &ended.conf, shown, status, out),
        Came::ShowsLabel(front) => put_front(front, status, out),
        Came::Prints(text) => put_text(text, status, out),
    }
}
