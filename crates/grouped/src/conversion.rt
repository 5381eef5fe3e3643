//! Conversion: the rows of a batch as states of a group each.
ghost use Rattle.std.specs.Prelude.{◌≡◌, IfOk};
ghost use Rattle.column.specs.Columns.{bit_at};
ghost use Rattle.column.specs.Seen.{marks_seen};
ghost use Rattle.layout.specs.Written.{eight, flag_parts_seen};
ghost use Rattle.book.specs.Calls.{convert};
ghost use Rattle.book.specs.Emission.{passed_on};
ghost use Rattle.keeping.specs.Replies.{given_of, batch_answer, flags_only};
ghost use Rattle.grouped.specs.Accumulators.{Obeys};
ghost use Rattle.grouped.specs.Conversions.{flags_at_front, MergesAs};

use crate::FirstLastGroupsAccumulator;
use column::{BoolColumn, Column};
use faults::Fault;
use keeping::{Given, check_columns, write_flags};
use layout::{FlagOutput, FlagSource};
use tables::{RowOrder, ValueState};

// The bits of the rows 8 j to 8 j + 7; none is set past the end.
#[inline]
fn byte_of(bytes: &[u8], j: usize) -> u8
    ensures { result ≡ eight (bit_at bytes.now) j }
{
    bytes.get(j).copied().unwrap_or(0)
}

// The flag of each row: the filter's with its nulls, or true where there is no filter.
#[derive(Drop)]
struct PassedOn<'a> {
    filter: Option<BoolColumn<'a>>,
}

impl<'a> FlagSource for PassedOn<'a> {
    ghost shows = { λ p r. passed_on (marks_seen p.filter) r };

    fn flag(&self, row: usize) -> Option<bool> {
        match self.filter {
            None => Some(true),
            Some(flags) => flags.value(row),
        }
    }

    // Of eight rows at once, by the filter's own bytes.
    fn known_byte(&self, j: usize) -> u8 {
        match self.filter {
            Some(flags) if !flags.validity.is_empty() => byte_of(flags.validity, j),
            _ => u8::MAX,
        }
    }

    fn holds_byte(&self, j: usize) -> u8 {
        match self.filter {
            None => u8::MAX,
            Some(flags) => self.known_byte(j) & byte_of(flags.bits, j),
        }
    }
}

impl<S: ValueState, O: RowOrder> FirstLastGroupsAccumulator<S, O> {
    /// Writes the flags column that makes a batch's own columns the states of its rows: the filter with its nulls, or all true. The original's `convert_to_state`.
    ///
    /// Refused, in this order: COLS, ROWS, SPACE. A refused call writes nothing.
    pub fn convert_to_state(
        &self,
        values: Column,
        orderings: [Column; 3],
        count: usize,
        opt_filter: Option<BoolColumn>,
        out: &mut FlagOutput,
    ) -> Result<(), Fault>
        ensures obeys { Obeys self.now
            (convert (given_of values.entry orderings.entry count) (marks_seen opt_filter.entry))
            (flags_only (flag_parts_seen out.old))
            (record { result = batch_answer result; outputs = flags_only (flag_parts_seen out.new) })
            self.now }
        ensures merges { IfOk result (λ _. MergesAs (given_of values.entry orderings.entry count) (marks_seen opt_filter.entry) (flags_at_front values.entry.rows (flag_parts_seen out.new))) }
    {
        let given = Given {
            value: values,
            orders: orderings,
            count,
        };
        check_columns(&self.kept.order, &given, opt_filter)?;
        let flags = PassedOn { filter: opt_filter };
        write_flags(&flags, values.rows, out)
    }
}
