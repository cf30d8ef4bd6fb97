//! What an action asks to be done to an array without a core.
ghost use Rattle.std.specs.Prelude.{◌≡◌};
ghost use Rattle.raid_conf.specs.Form.{IsConf};
ghost use Rattle.top_words.specs.Asked.{profile_of};
ghost use Rattle.top_words.specs.Views.{action_seen};
ghost use Rattle.raid_top.specs.Orders.{first_label, kill_of, order_for};

use crate::array::Order;
use raid_conf::Conf;
use raid_label::Label;
use top_acts::Renewal;
use top_duty::plan_of;
use top_words::{Action, Deed};

// The label of an array that was never labelled.
fn first_label(conf: &Conf, rows: u32, serial: u32) -> Label
    requires { IsConf conf.now }
    ensures { result ≡ first_label conf.now rows serial }
{
    let plan = plan_of(conf);
    Label {
        version: 2,
        serial,
        counter: 0,
        column: 0,
        columns: conf.columns,
        unit: plan.unit,
        rows,
        level: plan.level,
        clean: 0,
        b: plan.b,
        k: plan.k,
        r: plan.r,
        lambda: plan.lambda,
        seats: [0; 32],
        filling: 0,
        done: 0,
    }
}

// A column is failed that is named, of an array that has labels.
fn kill_of(comp: Option<u32>, newest: Option<Label>) -> Option<Order>
    ensures { result ≡ kill_of comp newest }
{
    match (comp, newest) {
        (Some(column), Some(label)) => Some(Order::Kill(column, label)),
        _ => None,
    }
}

// What is to be done by the deed.
fn order_for(
    deed: Deed,
    comp: Option<u32>,
    newest: Option<Label>,
    conf: &Conf,
    rows: u32,
) -> Option<Order>
    requires { IsConf conf.now }
    ensures { result ≡ order_for deed comp newest conf.now rows }
{
    match deed {
        Deed::Looks | Deed::Serves => None,
        Deed::Checks => Some(Order::Check),
        Deed::Inits => Some(Order::Renew(Renewal::Init, newest)),
        Deed::Rewrites => Some(Order::Renew(Renewal::Rewrite, newest)),
        Deed::Kills => kill_of(comp, newest),
        Deed::Labels { serial } => Some(Order::Label(first_label(conf, rows, serial))),
    }
}

/// What is to be done to the array; None where clients are served.
pub(crate) fn order_of(
    action: Action<'_>,
    comp: Option<u32>,
    newest: Option<Label>,
    conf: &Conf,
    rows: u32,
) -> Option<Order>
    requires { IsConf conf.now }
    ensures { result ≡ order_for (profile_of (action_seen action.entry)).deed comp newest
        conf.now rows }
{
    order_for(action.profile().deed, comp, newest, conf, rows)
}
