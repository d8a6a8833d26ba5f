// Where the statements of the tables' rows were signed.
ghost use Rattle.std.specs.Prelude.{◌≡◌, ◌<◌};
ghost use Rattle.views.specs.View.{view_of};
ghost use Rattle.pool.specs.Pool.{stmt_at};
ghost use Rattle.tables.specs.Index.{number_at};

use pool::POOL_WORDS;
use tables::ROWS;

// The view at which the statement of a row was signed.
pub fn at(words: &[u64; POOL_WORDS], rows: &[u16; ROWS], table: usize, row: usize) -> u64
    requires { (table < 2) × (row < 512) }
    ensures { view_of result ≡ (stmt_at words.now (number_at rows.now table row)).at }
{
    pool::at(words, tables::number(rows, table, row))
}
