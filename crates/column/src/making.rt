// Making a column: KIND, then SHAPE.
ghost use Rattle.std.specs.Prelude.{◌≡◌, ◌/◌, ◌<◌, ◌≤◌, length, not, ◌&&◌};
ghost use Rattle.column.specs.Checks.{outcome, refuse};
ghost use Rattle.column.specs.Shapes.{known_kind, rises, field_fits, record_fits, records_fit, parts_fit, bits_fit, validity_fits, shape_fits, column_refused, flags_refused};
ghost use Rattle.column.specs.declared.ColumnFault.TheVariants as faults;
ghost use Rattle.column.specs.Seen.{kind_seen, kind_coded, column_over, flags_over};

use crate::bits::{bit, number};
use crate::{BoolColumn, Column, ColumnFault, Kind};

impl TryFrom<u32> for Kind {
    type Error = ColumnFault;

    ghost try_from_gives = { λ code r. r ≡ outcome (refuse (not (known_kind code)) faults.Kind) (kind_coded code) };

    /// The kind that a number stands for: KIND where there is none.
    fn try_from(code: u32) -> Result<Kind, ColumnFault> {
        match code {
            1 => Ok(Kind::Number),
            2 => Ok(Kind::Bytes),
            3 => Ok(Kind::Record),
            _ => Err(ColumnFault::Kind),
        }
    }
}

// Whether field `j` of a record is present or has zero bytes.
fn field_fits(bytes: &[u8; 25], j: usize) -> bool
    requires { j < 3 }
    ensures { result ≡ field_fits bytes.now 0 j }
{
    bit(&bytes[..1], j) || number(bytes, 1 + 8 * j) == 0
}

// Whether each field of a record is present or has zero bytes.
fn fields_fit(bytes: &[u8; 25]) -> bool
    ensures { result ≡ (field_fits bytes.now 0 0 && (field_fits bytes.now 0 1 && field_fits bytes.now 0 2)) }
{
    (0..3).all(|j| field_fits(bytes, j))
}

// Whether 25 bytes are a record.
fn record_fits(bytes: &[u8; 25]) -> bool
    ensures { result ≡ record_fits bytes.now 0 }
{
    bytes[0] < 8 && fields_fit(bytes)
}

// Whether the data are records, 25 bytes each.
fn records_fit(data: &[u8]) -> bool
    ensures { result ≡ records_fit «data».now (length «data».now / 25) }
{
    let (records, _) = data.as_chunks();
    records.iter().all(record_fits)
}

// Whether there are exactly as many bytes as the rows need bits.
fn bits_fit(bytes: &[u8], rows: usize) -> bool
    ensures { result ≡ bits_fit bytes.now rows }
{
    bytes.len() == rows.div_ceil(8)
}

// Whether there are no validity bytes, or as many as the rows need.
fn validity_fits(validity: &[u8], rows: usize) -> bool
    ensures { result ≡ validity_fits validity.now rows }
{
    validity.is_empty() || bits_fit(validity, rows)
}

// Whether each offset up to that of row `rows` is at most the next. Without an early exit, so that several are compared at once.
fn rises(offsets: &[u32], rows: usize) -> bool
    requires { rows < length offsets.now }
    ensures { result ≡ rises offsets.now rows }
{
    let mut rising = true;
    for r in 0..rows {
        rising &= offsets[r] <= offsets[r + 1];
    }
    rising
}

impl<'a> Column<'a> {
    // Whether offsets and data fit the kind and the rows.
    fn parts_fit(&self) -> bool
        requires { self.now.rows ≤ 1024 }
        ensures { result ≡ parts_fit (kind_seen self.now.kind) self.now.rows self.now.offsets.now self.now.«data».now }
    {
        match self.kind {
            Kind::Number => self.offsets.is_empty() && self.data.len() == 8 * self.rows,
            Kind::Bytes => {
                self.offsets.len() == self.rows + 1
                    && rises(self.offsets, self.rows)
                    && self.offsets[self.rows] as usize <= self.data.len()
            }
            Kind::Record => {
                self.offsets.is_empty()
                    && self.data.len() == 25 * self.rows
                    && records_fit(self.data)
            }
        }
    }

    // Whether the parts make a column of the kind.
    fn shape_fits(&self) -> bool
        ensures { result ≡ shape_fits (kind_seen self.now.kind) self.now.rows self.now.validity.now self.now.offsets.now self.now.«data».now }
    {
        self.rows <= 1024 && validity_fits(self.validity, self.rows) && self.parts_fit()
    }

    /// The column over the caller's parts, of at most 1,024 rows; `kind` is 1 for numbers, 2 for byte strings, 3 for records.
    /// A number, since users are given the numbers of the kinds, and an unknown one is to be declined.
    ///
    /// Declines with KIND where no kind has that number, and then with SHAPE where the parts do not fit the kind and the rows.
    pub fn new(
        kind: u32,
        rows: usize,
        validity: &'a [u8],
        offsets: &'a [u32],
        data: &'a [u8],
    ) -> Result<Column<'a>, ColumnFault>
        ensures { result ≡ outcome (column_refused kind rows validity.now offsets.now «data».now) (column_over kind rows validity.entry offsets.entry «data».entry) }
    {
        let column = Column {
            kind: Kind::try_from(kind)?,
            rows,
            validity,
            offsets,
            data,
        };
        if !column.shape_fits() {
            return Err(ColumnFault::Shape);
        }
        Ok(column)
    }
}

impl<'a> BoolColumn<'a> {
    /// The boolean column over the caller's parts, of at most 1,024 rows: no validity bytes, or a bit for each row, and a value bit for each row.
    ///
    /// Declines with SHAPE where the parts do not fit the rows.
    pub fn new(
        rows: usize,
        validity: &'a [u8],
        bits: &'a [u8],
    ) -> Result<BoolColumn<'a>, ColumnFault>
        ensures { result ≡ outcome (flags_refused rows validity.now bits.now) (flags_over rows validity.entry bits.entry) }
    {
        if rows > 1024 || !validity_fits(validity, rows) || !bits_fit(bits, rows) {
            return Err(ColumnFault::Shape);
        }
        Ok(BoolColumn {
            rows,
            validity,
            bits,
        })
    }
}
