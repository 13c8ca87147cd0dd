// One frame for all that is due (document 02, request 3), on the bytes that carry the reporting table.
ghost use Rattle.std.specs.Prelude.{◌≡◌, true, ◌<◌, length};
ghost use Rattle.frame.specs.Answer.{seen};
ghost use Rattle.frame.specs.Inside.Buffer.{putting, put};
ghost use Rattle.store.specs.Contents.{cluster_of};
ghost use Rattle.reporting.specs.Table.{capacity};
ghost use Rattle.report.specs.Round.{above};
ghost use Rattle.report.specs.Turn.{turn_for, id_of, key_of, value_in, record_in, after_turn, turn_of};
ghost use Rattle.report.specs.Inside.Turn.{Tries, Steps, mine_of, Sweeps, Finishes};

use super::report::{put_record, unasked};
use frame::answer::{Answer, Refusal, refuse};
use frame::command_identifier::CommandIdentifier;
use frame::header::write_response_header;
use frame::reply::clear;
use reporting::carried::is_table;
use reporting::entry::Key;
use reporting::held::TableMut;
use store::layout::is_store;
use store::lookup::{Attribute, attribute_at, cluster_of, count_of, is_reportable};
use store::value::value_of;
use types::ids::AttributeId;
use types::value::number_at;

// What an attribute came to: not due, a frame longer by its record, or no room for that.
#[derive(Clone, Copy)]
pub enum Tried {
    Passed,
    Longer(usize),
    Full,
}

// How far a pass has come: the end of the frame so far, the last id, and whether a record did not fit.
#[derive(Clone, Copy)]
pub struct Swept {
    pub out: usize,
    pub last: u32,
    pub full: bool,
}

// The number of an attribute's value; no number counts as 0.
fn value_in(store: &[u8], a: Attribute) -> i64
    ensures { result ≡ value_in store.now a }
{
    number_at(store, a.offset as usize, a.type_id).unwrap_or(0)
}

// What its entry is found by.
fn key_of(store: &[u8], a: Attribute) -> Key
    requires { id_of a < 65536 }
    ensures { result ≡ key_of (cluster_of store.now) (id_of a) }
{
    let id = a.name.0 as u16;
    Key {
        cluster: cluster_of(store),
        attribute: AttributeId(id),
    }
}

// Puts its record.
fn put_attribute(frame: &mut [u8], out: usize, store: &[u8], a: Attribute) -> Option<usize>
    requires { id_of a < 65536 }
    ensures { putting result frame.new ≡ put frame.old out (record_in store.now a) }
{
    let id = a.name.0 as u16;
    let code = a.type_id;
    put_record(frame, out, AttributeId(id), code.0, value_of(store, a))
}

// Whether an attribute comes above the last id. A number above every id is none.
fn is_above(last: u32, a: Attribute) -> bool
    ensures { result ≡ above last (id_of a) }
{
    if 0xffff < last {
        return true;
    }
    last < a.name.0
}

// An attribute whose turn it is.
fn try_attribute(
    store: &[u8],
    a: Attribute,
    table: &mut TableMut<'_>,
    time: u32,
    frame: &mut [u8],
    out: usize,
) -> Tried
    requires { id_of a < 65536 }
    ensures same_reference { table.new.bytes.ghost_name ≡ table.old.bytes.ghost_name }
    ensures tried { Tries store.now a time table.old.bytes.now frame.old out result table.new.bytes.now frame.new }
{
    if !is_reportable(a) {
        return Tried::Passed;
    }
    let value = value_in(store, a);
    let key = key_of(store, a);
    if !table.read().due(key, time, value) {
        return Tried::Passed;
    }
    let put = put_attribute(frame, out, store, a);
    let Some(o) = put else {
        return Tried::Full;
    };
    table.mark(key, time, value);
    Tried::Longer(o)
}

// One attribute of a pass.
fn sweep_one(
    store: &[u8],
    a: Attribute,
    mine: bool,
    table: &mut TableMut<'_>,
    time: u32,
    frame: &mut [u8],
    c: Swept,
) -> Swept
    requires { id_of a < 65536 }
    ensures same_reference { table.new.bytes.ghost_name ≡ table.old.bytes.ghost_name }
    ensures step { Steps store.now a mine time table.old.bytes.now frame.old c result table.new.bytes.now frame.new }
{
    if c.full {
        return c;
    }
    if !mine {
        return c;
    }
    let tried = try_attribute(store, a, table, time, frame, c.out);
    match tried {
        Tried::Passed => c,
        Tried::Longer(o) => Swept {
            out: o,
            last: a.name.0,
            full: false,
        },
        Tried::Full => Swept {
            out: c.out,
            last: c.last,
            full: true,
        },
    }
}

// Whether it is an attribute's turn: in the first pass above the last id, in the second not.
fn is_mine(last: u32, upper: bool, a: Attribute) -> bool
    ensures { result ≡ mine_of upper last (id_of a) }
{
    let over = is_above(last, a);
    if upper {
        return over;
    }
    !over
}

// One pass over the attributes of a store.
fn sweep(
    store: &[u8],
    last: u32,
    upper: bool,
    table: &mut TableMut<'_>,
    time: u32,
    frame: &mut [u8],
    from: Swept,
) -> Swept
    ensures same_reference { table.new.bytes.ghost_name ≡ table.old.bytes.ghost_name }
    ensures swept { Sweeps store.now last upper time table.old.bytes.now frame.old from result table.new.bytes.now frame.new }
{
    let n = count_of(store);
    let mut c = from;
    for i in 0..n {
        let a = attribute_at(store, i);
        let mine = is_mine(last, upper, a);
        c = sweep_one(store, a, mine, table, time, frame, c);
    }
    c
}

// The answer by how far both passes came: 6 where nothing was due, 5 where the first record did not fit.
fn finish(frame: &mut [u8], from: usize, c: Swept) -> Answer
    ensures { Finishes frame.old from c result frame.new }
{
    if from < c.out {
        return Ok(c.out);
    }
    if c.full {
        return refuse(frame, Refusal::ReplyTooLong);
    }
    refuse(frame, Refusal::NothingToSend)
}

// What a turn gives back beside the frame and the table: the answer, and the last id.
#[derive(Clone, Copy)]
pub struct Turned {
    pub answer: Answer,
    pub last: u32,
}

// A REPORT TURN for one store: all that is due and fits, in one frame, and marked. `last` is the last id reported.
pub fn report_turn(
    store: &[u8],
    table: &mut [u8],
    sequence: u8,
    time: u32,
    last: u32,
    frame: &mut [u8],
) -> Turned
    ensures { seen result.answer frame.new (after_turn table.new result.last) ≡ turn_of 8 (turn_for store.now sequence last time (length frame.old)) table.old }
{
    if !is_store(store) {
        let answer = refuse(frame, Refusal::NotAStore);
        return Turned {
            answer: answer,
            last: last,
        };
    }
    if !is_table(table) {
        let answer = refuse(frame, Refusal::NotATable);
        return Turned {
            answer: answer,
            last: last,
        };
    }
    let mut held = TableMut { bytes: table };
    clear(frame);
    let request = unasked(sequence);
    let put = write_response_header(frame, request, CommandIdentifier::ReportAttributes);
    let Some(from) = put else {
        return Turned {
            answer: Err(Refusal::ReplyTooLong),
            last: last,
        };
    };
    let start = Swept {
        out: from,
        last: last,
        full: false,
    };
    let first = sweep(store, last, true, &mut held, time, frame, start);
    let both = sweep(store, last, false, &mut held, time, frame, first);
    let answer = finish(frame, from, both);
    Turned {
        answer: answer,
        last: both.last,
    }
}
