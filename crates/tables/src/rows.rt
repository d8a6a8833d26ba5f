// The memory of the tables, read and written.
ghost use Rattle.std.specs.Prelude.{◌≡◌, ◌<◌};
ghost use Rattle.tables.specs.Index.{row_of, newest_at, older_at, number_at, key_at, SlotsCleared, RowLinked, RowNumbered, RowKeyed};

// The most rows of a table.
pub const CAPACITY: usize = 512;

// The slots of an index. More would take longer to clear than they save where a record is short; with 512 two of three worst cases were 1.5 in 100 faster.
pub const SLOTS: usize = 256;

// Of the numbers of a table its slots come first. Where its links and the numbers of its rows start, and how many numbers it has.
const LINKS: usize = SLOTS;

const NUMBERS: usize = LINKS + CAPACITY;

const TABLE: usize = NUMBERS + CAPACITY;

// The numbers of two tables.
pub const ROWS: usize = 2 * TABLE;

// The keys of two tables.
pub const KEYS: usize = 2 * CAPACITY;

// The row that a link stands for. This is the one place where links are read as rows.
fn row_of(link: u16) -> Option<usize>
    ensures { result ≡ row_of link }
{
    usize::from(link).checked_sub(1)
}

// The newest row of a slot.
pub fn newest(rows: &[u16; ROWS], t: usize, slot: usize) -> Option<usize>
    requires { (t < 2) × (slot < 256) }
    ensures { result ≡ newest_at rows.now t slot }
{
    row_of(rows[t * TABLE + slot])
}

// The row before this one in its slot.
pub fn older(rows: &[u16; ROWS], t: usize, row: usize) -> Option<usize>
    requires { (t < 2) × (row < 512) }
    ensures { result ≡ older_at rows.now t row }
{
    row_of(rows[t * TABLE + LINKS + row])
}

// The number of a row.
pub fn number(rows: &[u16; ROWS], t: usize, row: usize) -> u16
    requires { (t < 2) × (row < 512) }
    ensures { result ≡ number_at rows.now t row }
{
    rows[t * TABLE + NUMBERS + row]
}

// The key of a row.
pub fn key(keys: &[u64; KEYS], t: usize, row: usize) -> u64
    requires { (t < 2) × (row < 512) }
    ensures { result ≡ key_at keys.now t row }
{
    keys[t * CAPACITY + row]
}

// Empties the slots of a table. Its links and numbers are left as they are, since no slot leads to them.
pub fn clear(rows: &mut [u16; ROWS], t: usize)
    requires { t < 2 }
    ensures { SlotsCleared rows.old t rows.new }
{
    let from = t * TABLE;
    rows[from..from + SLOTS].fill(0);
}

// Puts a row into a slot, before the rows that the slot has.
pub fn link(rows: &mut [u16; ROWS], t: usize, slot: usize, row: usize)
    requires { (t < 2) × (slot < 256) × (row < 512) }
    ensures { RowLinked rows.old t slot row rows.new }
{
    let before = rows[t * TABLE + slot];
    rows[t * TABLE + LINKS + row] = before;
    rows[t * TABLE + slot] = row as u16 + 1;
}

// Gives a row its number.
pub fn set_number(rows: &mut [u16; ROWS], t: usize, row: usize, x: u16)
    requires { (t < 2) × (row < 512) }
    ensures { RowNumbered rows.old t row x rows.new }
{
    rows[t * TABLE + NUMBERS + row] = x;
}

// Gives a row its key.
pub fn set_key(keys: &mut [u64; KEYS], t: usize, row: usize, w: u64)
    requires { (t < 2) × (row < 512) }
    ensures { RowKeyed keys.old t row w keys.new }
{
    keys[t * CAPACITY + row] = w;
}
