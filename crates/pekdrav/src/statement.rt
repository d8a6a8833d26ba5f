// A statement's text, read and written again.
ghost use Rattle.host.specs.Statement.{Again};

use statements::BLOCK;

// Writes the text of the statement that `line` is in a ring of so many notices from the start of `out`, and answers its length; 0, and `out` as it was, where `line`
// is the text of no statement that keeps the field rules or `out` is too short.
#[unsafe(no_mangle)]
pub extern "C" fn pekdrav_statement_rewrite(line: &[u8], notices: usize, out: &mut [u8]) -> usize
    ensures { Again notices line.now out.old result out.new }
{
    let mut block = [0u64; BLOCK];
    match statements::read(line, notices, &mut block) {
        Some(statement) => statements::write(statement, &block, out),
        None => 0,
    }
}
