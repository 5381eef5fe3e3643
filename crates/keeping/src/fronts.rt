// Writing out the first groups: values, keys and set flags.
ghost use Rattle.std.specs.Prelude.{◌≡◌, ◌≤◌, None, Ok, length};
ghost use Rattle.column.specs.Checks.{unless_refused};
ghost use Rattle.layout.specs.Layout.{written, written_all, written_flags};
ghost use Rattle.layout.specs.Written.{parts_seen, keys_seen, flags_laid, flag_parts_seen};
ghost use Rattle.tables.specs.Refusals.{cells_laid, keys_laid, taking_keys};
ghost use Rattle.book.specs.Emission.{flags_short};
ghost use Rattle.faults.specs.Reported.{declined_seen};
ghost use Rattle.keeping.specs.Fronts.{too_few, cells_short, state_short, values_declined, state_declined, state_out};
ghost use Rattle.keeping.specs.Keepers.{cells, front};
ghost use Rattle.keeping.specs.Seen.{outputs_seen, Settled};

use crate::room::check_space;
use crate::{Keeper, StateOutput};
use faults::{Fault, Place, located};
use layout::{FlagOutput, FlagSource, KeyOutputs, Output};
use tables::{OrderFault, RowOrder, ValueState, check_drop};

// FEWER, where so many entries are held.
pub(crate) fn check_held(held: usize, n: usize) -> Result<(), Fault>
    ensures { declined_seen result ≡ too_few held n }
{
    located(check_drop(held, n), Place::Call, 0)
}

// Writes the first values, which are held: SPACE.
fn put_values<S: ValueState>(state: &S, n: usize, out: &mut Output) -> Result<(), Fault>
    requires { n ≤ length (S.GroupTable.entries state.now) }
    ensures answer { declined_seen result ≡ cells_short (S.GroupTable.settings state.now) (S.GroupTable.entries state.now) n (parts_seen out.old) }
    ensures after { parts_seen out.new ≡ unless_refused (cells_short (S.GroupTable.settings state.now) (S.GroupTable.entries state.now) n (parts_seen out.old)) (written (cells_laid (S.GroupTable.settings state.now) (S.GroupTable.entries state.now) n) (parts_seen out.old)) (parts_seen out.old) }
{
    located(state.write(n, out), Place::Values, 0)
}

/// Writes the first so many flags: SPACE.
pub fn write_flags<F: FlagSource>(flags: &F, rows: usize, out: &mut FlagOutput) -> Result<(), Fault>
    ensures answer { declined_seen result ≡ flags_short (flags_laid (F.FlagSource.shows flags.now) rows) (flag_parts_seen out.old) }
    ensures after { flag_parts_seen out.new ≡ unless_refused (flags_short (flags_laid (F.FlagSource.shows flags.now) rows) (flag_parts_seen out.old)) (written_flags (flags_laid (F.FlagSource.shows flags.now) rows) (flag_parts_seen out.old)) (flag_parts_seen out.old) }
{
    located(out.put_flags(flags, rows), Place::Marks, 0)
}

// Writes the first keys, where there is room for each of their columns.
fn put_keys<O: RowOrder>(order: &O, n: usize, out: &mut KeyOutputs) -> Result<(), OrderFault>
    requires { taking_keys (O.GroupTable.settings order.now) (O.GroupTable.entries order.now) n (keys_seen out.old) ≡ None }
    ensures answer { result ≡ Ok tt }
    ensures after { keys_seen out.new ≡ written_all (keys_laid (O.GroupTable.settings order.now) (O.GroupTable.entries order.now) n) (keys_seen out.old) }
{
    let columns = order.columns();
    if columns == 0 {
        return Ok(());
    }
    order.write_key(0, n, &mut out.first)?;
    if columns == 1 {
        return Ok(());
    }
    order.write_key(1, n, &mut out.second)?;
    if columns == 2 {
        return Ok(());
    }
    order.write_key(2, n, &mut out.third)
}

impl<S: ValueState, O: RowOrder> Keeper<S, O> {
    // Writes the first values, keys and set flags, which are held: SPACE, in all parts before anything is written.
    fn put_state<F: FlagSource>(
        &self,
        flags: &F,
        n: usize,
        out: &mut StateOutput,
    ) -> Result<(), Fault>
        requires { n ≤ length (cells self.now) }
        ensures { Settled (state_short (front self.now (F.FlagSource.shows flags.now)) n (outputs_seen out.old)) (state_out (front self.now (F.FlagSource.shows flags.now)) n (outputs_seen out.old)) (outputs_seen out.old) result (outputs_seen out.new) }
    {
        check_space(&self.state, &self.order, n, out)?;
        put_values(&self.state, n, &mut out.values)?;
        located(put_keys(&self.order, n, &mut out.keys), Place::Call, 0)?;
        write_flags(flags, n, &mut out.flags)
    }

    /// Writes the values of the first `n` groups: FEWER, SPACE.
    pub fn write_values(&self, n: usize, out: &mut Output) -> Result<(), Fault>
        ensures { Settled (values_declined (S.GroupTable.settings self.now.state) (cells self.now) n (parts_seen out.old)) (written (cells_laid (S.GroupTable.settings self.now.state) (cells self.now) n) (parts_seen out.old)) (parts_seen out.old) result (parts_seen out.new) }
    {
        check_held(self.groups(), n)?;
        put_values(&self.state, n, out)
    }

    /// Writes the values, the keys and the set flags of the first `n` groups: FEWER, and SPACE in all parts before anything is written.
    pub fn write_state<F: FlagSource>(
        &self,
        flags: &F,
        n: usize,
        out: &mut StateOutput,
    ) -> Result<(), Fault>
        ensures { Settled (state_declined (front self.now (F.FlagSource.shows flags.now)) n (outputs_seen out.old)) (state_out (front self.now (F.FlagSource.shows flags.now)) n (outputs_seen out.old)) (outputs_seen out.old) result (outputs_seen out.new) }
    {
        check_held(self.groups(), n)?;
        self.put_state(flags, n, out)
    }
}
