// Writing a request as a frame.
ghost use Rattle.std.specs.Prelude.{◌≡◌, ◌≤◌, ◌+◌, ◌*◌, ◌++◌, length, take, slice_index};
ghost use Rattle.af_limits.specs.Limits.{longest_frame, longest_play};
ghost use Rattle.af_request.specs.Asked.{request_meaning, play_run, record_run};
ghost use Rattle.af_request.specs.Fields.{words_for};
ghost use Rattle.af_wire.specs.Order.{i16_bytes, u32_bytes};
ghost use Rattle.af_request.specs.Requests.{asked_in, front, request_bytes, FitsFrame, IsOneRequest};

use crate::put::{put, put_zeros};
use crate::{Request, opcode};
use af_wire::Order;

/// Writes a request as a frame in an order, its padding as zeros, and answers how many bytes that are. A Play has at most 16368
/// bytes of samples.
#[tactic(auto, using(crate::proofs::RequestRoundTrips::spelled_again, crate::proofs::RequestRoundTrips::spelled_one))]
pub fn write_request(order: Order, request: &Request<'_>, out: &mut [u8]) -> usize
    requires samples { FitsFrame (request_meaning request.now) }
    requires room { longest_frame ≤ length out.old }
    ensures size { result ≡ length (request_bytes order (request_meaning request.now)) }
    ensures most { result ≤ longest_frame }
    ensures bytes { take result out.new ≡ request_bytes order (request_meaning request.now) }
    ensures one { IsOneRequest order (request_meaning request.now) (take result out.new) }
    ensures again { asked_in order (take result out.new) ≡ Some (request_meaning request.now) }
{
    match request {
        Request::NoOp => put_front(order, out, opcode::NO_OP, 0, 1),
        Request::GetTime { device } => put_front(order, out, opcode::GET_TIME, *device, 1),
        Request::CreateAc {
            device,
            ac,
            ty,
            channels,
            preempt,
            play_gain,
            record_gain,
        } => {
            let at = put_front_and_word(order, out, [opcode::CREATE_AC, *device], 4, *ac);
            put_gains(
                order,
                out,
                at,
                [*ty, *channels, *preempt, 0],
                *play_gain,
                *record_gain,
            )
        }
        Request::ChangeAc {
            mask,
            ac,
            preempt,
            play_gain,
            record_gain,
        } => {
            let at = put_front_and_word(order, out, [opcode::CHANGE_AC, *mask], 4, *ac);
            put_gains(
                order,
                out,
                at,
                [*preempt, 0, 0, 0],
                *play_gain,
                *record_gain,
            )
        }
        Request::FreeAc { ac } => put_front_and_word(order, out, [opcode::FREE_AC, 0], 2, *ac),
        Request::PlayRun {
            quiet,
            ac,
            time,
            samples,
        } => put_play(order, out, *quiet, *ac, time.0, samples),
        Request::RecordRun {
            blocking,
            ac,
            time,
            nbytes,
        } => put_record(order, out, *blocking, *ac, time.0, *nbytes),
        Request::SelectEvents { device, mask } => put_front_and_word(
            order,
            out,
            [opcode::SELECT_EVENTS, *device],
            2,
            *mask,
        ),
        Request::SetControls {
            device,
            mask,
            input_on,
            output_on,
            input_gain,
            output_gain,
        } => {
            let at = put_front(order, out, opcode::SET_CONTROLS, *device, 3);
            put_gains(
                order,
                out,
                at,
                [*mask, *input_on, *output_on, 0],
                *input_gain,
                *output_gain,
            )
        }
        Request::QueryControls { device } => put_front(
            order,
            out,
            opcode::QUERY_CONTROLS,
            *device,
            1,
        ),
        Request::HookSwitch { device, off } => put_front_and_word(
            order,
            out,
            [opcode::HOOK_SWITCH, *device],
            2,
            *off,
        ),
        Request::QueryPhone { device } => put_front(order, out, opcode::QUERY_PHONE, *device, 1),
    }
}

// The first word of a request.
fn put_front(order: Order, out: &mut [u8], opcode: u8, detail: u8, words: u16) -> usize
    requires { 4 ≤ length out.old }
    ensures end { result ≡ 4 }
    ensures bytes { take result out.new ≡ front order opcode detail words }
{
    let [w0, w1] = order.u16_bytes(words);
    put(out, 0, &[opcode, detail, w0, w1])
}

// The first word of a request, and a number after it.
fn put_front_and_word(order: Order, out: &mut [u8], kind: [u8; 2], words: u16, word: u32) -> usize
    requires { 8 ≤ length out.old }
    ensures end { result ≡ 8 }
    ensures bytes { take result out.new ≡ front order (slice_index kind 0) (slice_index kind 1) words ++ u32_bytes order word }
{
    let [opcode, detail] = kind;
    let at = put_front(order, out, opcode, detail, words);
    put(out, at, &order.u32_bytes(word))
}

// Four bytes and two gains.
fn put_gains(
    order: Order,
    out: &mut [u8],
    at: usize,
    bytes: [u8; 4],
    first: i16,
    second: i16,
) -> usize
    requires { at + 8 ≤ length out.old }
    ensures end { result ≡ at + 8 }
    ensures bytes { take result out.new ≡ take at out.old ++ bytes ++ i16_bytes order first ++ i16_bytes order second }
{
    let at = put(out, at, &bytes);
    let at = put(out, at, &order.i16_bytes(first));
    put(out, at, &order.i16_bytes(second))
}

// What a play and a record have before any data: the context, the time and the count of bytes.
fn put_run(order: Order, out: &mut [u8], kind: [u8; 2], words: u16, run: [u32; 3]) -> usize
    requires { 16 ≤ length out.old }
    ensures end { result ≡ 16 }
    ensures bytes { take result out.new ≡ front order (slice_index kind 0) (slice_index kind 1) words
        ++ u32_bytes order (slice_index run 0) ++ u32_bytes order (slice_index run 1) ++ u32_bytes order (slice_index run 2) }
{
    let [ac, time, nbytes] = run;
    let at = put_front_and_word(order, out, kind, words, ac);
    let at = put(out, at, &order.u32_bytes(time));
    put(out, at, &order.u32_bytes(nbytes))
}

// A play, its samples padded with zeros to a word.
#[tactic(auto, using(crate::proofs::RequestRoundTrips::spelled_again, crate::proofs::RequestRoundTrips::spelled_one))]
fn put_play(order: Order, out: &mut [u8], quiet: bool, ac: u32, time: u32, samples: &[u8]) -> usize
    requires samples { length samples.now ≤ longest_play }
    requires room { longest_frame ≤ length out.old }
    ensures end { result ≡ 16 + 4 * words_for (length samples.now) }
    ensures bytes { take result out.new ≡ request_bytes order (play_run quiet ac time samples.now) }
    ensures one { IsOneRequest order (play_run quiet ac time samples.now) (take result out.new) }
    ensures again { asked_in order (take result out.new) ≡ Some (play_run quiet ac time samples.now) }
{
    let words = samples.len().div_ceil(4);
    let run = [ac, time, samples.len() as u32];
    let at = put_run(
        order,
        out,
        [opcode::PLAY, u8::from(quiet)],
        4 + words as u16,
        run,
    );
    let at = put(out, at, samples);
    put_zeros(out, at, 4 * words - samples.len())
}

#[tactic(auto, using(crate::proofs::RequestRoundTrips::spelled_again, crate::proofs::RequestRoundTrips::spelled_one))]
fn put_record(
    order: Order,
    out: &mut [u8],
    blocking: bool,
    ac: u32,
    time: u32,
    nbytes: u32,
) -> usize
    requires { 16 ≤ length out.old }
    ensures end { result ≡ 16 }
    ensures bytes { take result out.new ≡ request_bytes order (record_run blocking ac time nbytes) }
    ensures one { IsOneRequest order (record_run blocking ac time nbytes) (take result out.new) }
    ensures again { asked_in order (take result out.new) ≡ Some (record_run blocking ac time nbytes) }
{
    put_run(
        order,
        out,
        [opcode::RECORD, u8::from(blocking)],
        4,
        [ac, time, nbytes],
    )
}
