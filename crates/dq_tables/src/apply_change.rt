//! A change that is made and let go.
ghost use Rattle.dq_tables.specs.Rows.{after, operation_of};
ghost use Rattle.dq_tables.specs.Sound.{ChangeFits};
ghost use Rattle.dq_tables.specs.TableStates.{Writes};

use crate::change::Change;
use crate::fault::TableFault;
use crate::tables::Tables;

/// Makes one change, whole or not at all, and lets it go.
pub fn make_change<T: Tables>(tables: &mut T, change: Change) -> Result<(), TableFault>
    requires { (T.state tables.old).honest → ChangeFits (T.state tables.old).rows change }
    ensures { Writes (T.state tables.old) (T.state tables.new)
        (after (operation_of change) (T.state tables.old).rows) result }
{
    tables.apply(&change)
}
