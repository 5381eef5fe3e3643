//! Group tables.
ghost use Rattle.std.specs.Prelude.{◌≡◌, List, length, drop};
ghost use Rattle.std.specs.Option.{option_map};
ghost use Rattle.column.specs.Cells.{Cell};
ghost use Rattle.column.specs.Checks.{outcome, unless_refused};
ghost use Rattle.tables.specs.Meaning.{Settings};
ghost use Rattle.tables.specs.Refusals.{growing, grown_entries, dropping};
ghost use Rattle.tables.specs.declared.TableFault.{TableFault};

/// A list of entries, one for each held group, and settings that no call alters.
///
/// A table's own refusals come in the faults of its layer.
pub trait GroupTable {
    type Fault;

    ghost entries: { Self → List (List Cell) };

    ghost settings: { Self → Settings };

    ghost declines: { TableFault → Self.Fault };

    /// How many groups are held.
    fn groups(&self) -> usize
        ensures { result ≡ length (entries self.now) };

    /// How many columns are read.
    fn columns(&self) -> usize
        ensures { result ≡ length (settings self.now).kinds };

    /// Adds entries of nulls up to the total: TOTAL, SHRUNK.
    fn grow(&mut self, total: usize) -> Result<(), Self::Fault>
        ensures answer { result ≡ outcome (option_map declines (growing (length (entries self.old)) total)) tt }
        ensures after { entries self.new ≡ unless_refused (growing (length (entries self.old)) total) (grown_entries (settings self.old).kinds (entries self.old) total) (entries self.old) }
        ensures kept { settings self.new ≡ settings self.old };

    /// Drops the first `n` entries: FEWER.
    fn drop_first(&mut self, n: usize) -> Result<(), Self::Fault>
        ensures answer { result ≡ outcome (option_map declines (dropping (length (entries self.old)) n)) tt }
        ensures after { entries self.new ≡ unless_refused (dropping (length (entries self.old)) n) (drop n (entries self.old)) (entries self.old) }
        ensures kept { settings self.new ≡ settings self.old };
}
