// What is written for what is read.
ghost use Rattle.std.specs.Prelude.{◌≡◌, ◌≤◌, length, take};
ghost use Rattle.bench.specs.Bench.{said, served_of, bench_of};

use super::text::{put_answer, put_number};
use frame::answer::Refusal;
use frame::reply::put_run;
use reporting::table::ReportingTable;
use server::serve::handle_request;
use store::layout::part;
use store::lookup::cluster_of;
use types::number::u16_at;

// Room for the longest store.
fn space() -> [u8; 4096]
    ensures { 4096 ≡ length result }
{
    [0; 4096]
}

// Serves the request over a copy of the store: a store is lent to be changed. One of more than 4096 bytes is none.
fn served(store: &[u8], request: &[u8], out: &mut [u8]) -> usize
    requires { 130 ≤ length out.old }
    ensures { take result out.new ≡ said (served_of store.now request.now) }
{
    let n = store.len();
    if 4096 < n {
        return put_number(out, u8::from(Refusal::NotAStore));
    }
    let mut copy = space();
    put_run(&mut copy, 0, store);
    let mut reply = [0u8; 64];
    let after = handle_request(
        &mut copy[..n],
        ReportingTable::new(),
        cluster_of(store),
        true,
        request,
        &mut reply,
    );
    let answer = after.answer;
    put_answer(out, answer, &reply)
}

// Puts what is to be written at the start of out, and says where it ends. The longest is a 0, a space and two digits for each of 64
// bytes.
pub(crate) fn bench(input: &[u8], out: &mut [u8]) -> usize
    requires { 130 ≤ length out.old }
    ensures { take result out.new ≡ bench_of input.now }
{
    let n = u16_at(input, 0) as usize;
    let end = 2 + n;
    if input.len() < end {
        return put_number(out, u8::from(Refusal::NotAStore));
    }
    let store = part(input, 2, n);
    let request = part(input, end, input.len());
    served(store, request, out)
}
