//! Orders of the console, for the worklist of the institution that they name.
ghost use Rattle.std.specs.Prelude.{◌≡◌, ◌≢◌, IfErr};
ghost use Rattle.dq_config.specs.Routing.{institution_named};
ghost use Rattle.dq_core.specs.Services.{Scheduling, Withdrawal, order_reply};
ghost use Rattle.dq_core.specs.Effects.{Orders};

use crate::event::Reply;
use crate::fault::Fault;
use dq_config::Config;
use dq_tables::Tables;
use dq_worklist::{schedule, withdraw};

/// The refusal of an order for an institution that is not configured.
const NO_SUCH_INSTITUTION: u16 = 6;

fn order_reply(refusal: Option<u16>) -> Reply
    ensures { result ≡ order_reply refusal }
{
    match refusal {
        None => Reply::Done,
        Some(number) => Reply::Refused(number),
    }
}

/// Schedules an entry of the named institution's worklist.
#[tactic(auto, unfolding(crate::specs::Services::console_outcome))]
pub(crate) fn schedule_entry<T: Tables>(
    config: &Config,
    name: &[u8],
    octets: &[u8],
    tables: &mut T,
) -> Result<Reply, Fault>
    ensures orders { Orders (T.state tables.old) (T.state tables.new)
        (institution_named config.now name.now) (Scheduling octets.now) result }
    ensures fault { IfErr result (λ fault. fault ≢ Fault.Stopped) }
{
    match config.institution(name) {
        None => Ok(Reply::Refused(NO_SUCH_INSTITUTION)),
        Some(institution) => {
            let refusal = schedule(tables, institution, octets)?;
            Ok(order_reply(refusal))
        }
    }
}

/// Withdraws an entry of the named institution's worklist.
#[tactic(auto, unfolding(crate::specs::Services::console_outcome))]
pub(crate) fn withdraw_entry<T: Tables>(
    config: &Config,
    name: &[u8],
    id: &[u8],
    tables: &mut T,
) -> Result<Reply, Fault>
    ensures orders { Orders (T.state tables.old) (T.state tables.new)
        (institution_named config.now name.now) (Withdrawal id.now) result }
    ensures fault { IfErr result (λ fault. fault ≢ Fault.Stopped) }
{
    match config.institution(name) {
        None => Ok(Reply::Refused(NO_SUCH_INSTITUTION)),
        Some(institution) => {
            let refusal = withdraw(tables, institution, id)?;
            Ok(order_reply(refusal))
        }
    }
}
