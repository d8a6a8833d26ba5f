// An addition by text.
ghost use Rattle.std.specs.Prelude.{Err};
ghost use Rattle.host.specs.Host.{AddsText};
ghost use Rattle.host.specs.Stored.{NoneFor};

use crate::answers::VALUES;
use crate::held::FIELDS;
use crate::{answers, held};
use engine::Refusal;
use pool::{POOL_WORDS, RECORD};
use statements::BLOCK;

// The refusal of what is no statement.
fn unwritten(ready: bool) -> Refusal
    ensures { NoneFor ready (Err result) }
{
    if ready {
        Refusal::BadStatement
    } else {
        Refusal::OutOfPlace
    }
}

// Adds the statement whose text `line` is, by the number of notices of the controller's ring. No addition changes a controller, so that its words are only read.
pub fn add_text(
    fields: &[u64; FIELDS],
    ids: &mut [u16; RECORD],
    words: &mut [u64; POOL_WORDS],
    line: &[u8],
    value: &mut [u64; VALUES],
) -> u8
    ensures { AddsText line.now words.old words.new fields.now ids.old result ids.new value.new }
{
    let ready = held::is_ready(fields);
    let notices = held::notice_count(fields);
    let mut block = [0u64; BLOCK];
    let Some(statement) = statements::read(line, notices, &mut block) else {
        return answers::tell(Err(unwritten(ready)), value);
    };
    let answer = engine::add_statement(ready, notices, ids, words, statement, &block);
    answers::tell(answer, value)
}
