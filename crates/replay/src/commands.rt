// What ours says to a whole frame, with every room from none to a last one, held to what was recorded.
ghost use Rattle.std.specs.Prelude.{◌≡◌, ◌≤◌, length};
ghost use Rattle.frame.specs.Answer.{seen};
ghost use Rattle.replay.specs.Bytes.{same as same_bytes};
ghost use Rattle.replay.specs.Ours.{agreement};
ghost use Rattle.replay.specs.Commands.{asked_by, asked_of, outcome_of, store_says, answer_says, answer_with, answers, of_command};
ghost use Rattle.replay.specs.Inside.{again, Turned, matched};

use super::bytes::{blank, match_run, rest};
use super::cases::low;
use discover::attributes::discover_attributes;
use frame::answer::{Answer, answer_number, reply_len};
use frame::header::{FrameType, ZclHeader, read_header};
use frame::reply::put_run;
use read::attributes::read_attributes;
use store::layout::part;
use types::number::{byte_at, u16_at};
use write::attributes::{
    write_attributes, write_attributes_no_response, write_attributes_undivided,
};

// The commands that have a function of ours.
#[derive(Clone, Copy)]
enum Command {
    Read,
    Write,
    Undivided,
    Silent,
    Discover,
}

// How far the comparison is: the answer that was last told lies from `from` to `to`, and the next is to come at `at`.
#[derive(Clone, Copy)]
struct Place {
    from: usize,
    to: usize,
    at: usize,
}

// The command of a code and its request, if the code is that of one of those.
fn asked_by(code: u8, request: ZclHeader) -> Option<(Command, ZclHeader)>
    ensures { result ≡ asked_by code request }
{
    match code {
        0x00 => Some((Command::Read, request)),
        0x02 => Some((Command::Write, request)),
        0x03 => Some((Command::Undivided, request)),
        0x05 => Some((Command::Silent, request)),
        0x0c => Some((Command::Discover, request)),
        _ => None,
    }
}

// What a frame asks for.
#[tactic(auto, using(crate::proofs::Answers::same_global), unfolding(crate::specs::Commands::asked_of))]
fn asked_of(frame: &[u8]) -> Option<(Command, ZclHeader)>
    ensures { result ≡ asked_of frame.now }
{
    let h = read_header(frame)?;
    if h.frame_control.frame_type() != FrameType::GlobalCommand {
        return None;
    }
    asked_by(h.command_identifier.0, h)
}

// The command's function.
fn call(
    command: Command,
    request: ZclHeader,
    body: &[u8],
    store: &mut [u8],
    reply: &mut [u8],
) -> Answer
    ensures { seen result reply.new store.new ≡ outcome_of command request body.now store.old (length reply.old) }
{
    match command {
        Command::Read => read_attributes(store, request, body, reply),
        Command::Write => write_attributes(store, request, body, reply),
        Command::Undivided => write_attributes_undivided(store, request, body, reply),
        Command::Silent => write_attributes_no_response(store, request, body, reply),
        Command::Discover => discover_attributes(store, request, body, reply),
    }
}

// The store as it is afterwards, if it is another.
fn match_store(held: &[u8], at: usize, before: &[u8], after: &[u8]) -> Option<usize>
    ensures { result ≡ matched held.now at (store_says before.now after.now) }
{
    if after == before {
        return match_run(held, at, &[0]);
    }
    let next = match_run(held, at, &[1])?;
    match_run(held, next, after)
}

// Where the answer of a call ends, if it was recorded at `at`.
pub(crate) fn match_answer(
    held: &[u8],
    at: usize,
    answer: Answer,
    reply: &[u8],
    before: &[u8],
    after: &[u8],
) -> Option<usize>
    ensures { result ≡ matched held.now at (answer_says before.now (seen answer reply.now after.now)) }
{
    let n = reply_len(answer);
    let head = [1, answer_number(answer), low(n)];
    let second = match_run(held, at, &head)?;
    let third = match_run(held, second, part(reply, 0, n))?;
    match_store(held, third, before, after)
}

// Whether an answer is the one that was last told.
#[tactic(auto, using(crate::proofs::Answers::again_ends))]
fn is_again(
    held: &[u8],
    place: Place,
    answer: Answer,
    reply: &[u8],
    before: &[u8],
    after: &[u8],
) -> bool
    ensures { result ≡ again held.now place (answer_says before.now (seen answer reply.now after.now)) }
{
    match_answer(held, place.from, answer, reply, before, after) == Some(place.to)
}

// One answer: 00 where it is the one that was last told, else the answer. `None` where what was recorded is another.
fn answer_turn(
    held: &[u8],
    place: Place,
    answer: Answer,
    reply: &[u8],
    before: &[u8],
    after: &[u8],
) -> Option<Place>
    ensures { Turned held.now place (answer_says before.now (seen answer reply.now after.now)) result }
{
    if is_again(held, place, answer, reply, before, after) {
        let at = match_run(held, place.at, &[0])?;
        return Some(Place { at, ..place });
    }
    let end = match_answer(held, place.at, answer, reply, before, after)?;
    Some(Place {
        from: place.at,
        to: end,
        at: end,
    })
}

// The answer with as much room as `reply` has. `copy` is for the store that the command changes.
fn room_turn(
    command: Command,
    request: ZclHeader,
    body: &[u8],
    store: &[u8],
    held: &[u8],
    place: Place,
    copy: &mut [u8],
    reply: &mut [u8],
) -> Option<Place>
    requires { length copy.old ≡ length store.now }
    ensures { Turned held.now place (answer_with command request body.now store.now (length reply.old)) result }
{
    put_run(copy, 0, store);
    let answer = call(command, request, body, copy, reply);
    answer_turn(held, place, answer, reply, store, copy)
}

// The answers with every room up to the last one.
fn rooms(
    command: Command,
    request: ZclHeader,
    body: &[u8],
    store: &[u8],
    last: usize,
    held: &[u8],
    copy: &mut [u8],
    reply: &mut [u8],
) -> bool
    requires copy_len { length copy.old ≡ length store.now }
    requires last_bound { last ≤ 63 }
    requires reply_len { length reply.old ≡ 64 }
    ensures { result ≡ same_bytes (answers (answer_with command request body.now store.now) last) held.now }
{
    let mut place = Place {
        from: 0,
        to: 0,
        at: 0,
    };
    for room in 0..=last {
        let Some(next) = room_turn(
            command,
            request,
            body,
            store,
            held,
            place,
            copy,
            &mut reply[..room],
        ) else {
            return false;
        };
        place = next;
    }
    held.len() <= place.at
}

// The last room (1), the store's length (2), the store, and a frame.
pub(crate) fn of_command(input: &[u8], held: &[u8]) -> Option<bool>
    requires { length input.now ≤ 4608 }
    ensures { result ≡ agreement (of_command input.now) held.now }
{
    let last = byte_at(input, 0) as usize;
    let n = u16_at(input, 1) as usize;
    if 63 < last || input.len() < 3 + n {
        return None;
    }
    let frame = rest(input, 3 + n);
    let (command, request) = asked_of(frame)?;
    let body = rest(frame, request.body);
    let mut copy = blank();
    let mut reply = [0u8; 64];
    Some(rooms(
        command,
        request,
        body,
        part(input, 3, n),
        last,
        held,
        &mut copy[..n],
        &mut reply,
    ))
}
