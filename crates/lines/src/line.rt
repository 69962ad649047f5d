// The public call of the line reader: a line obeyed or refused, its reply written, the record
// saved.
ghost use Rattle.std.specs.Prelude.{cond, ◌++◌, ◌≡◌, ◌≤◌, ◌<◌, ◌^◌, length};
ghost use Rattle.std.proofs.lemmas.List.Edits.{sets};
ghost use Rattle.text.specs.Decimal.{decimal, max_digits};
ghost use Rattle.card.specs.Address.{cells_for};
ghost use Rattle.card.specs.Context.{context_of};
ghost use Rattle.saved.specs.Record.{config_width, saved_to};
ghost use Rattle.lines.specs.Line.{ending, reply_of, reply_with, shortest_reply, line_decision, line_outcome};
ghost use Rattle.lines.specs.Line.{line_result, result_for, result_of};

use crate::decision::{Accepted, Response, decide_for};
use crate::refused::Refused;
use card::card::Card;
use card::context::Value;
use grammar::grammar::parse_line;

// The fewest bytes that a reply buffer may have.
pub const SHORTEST_REPLY: usize = 16;

// The answer to a line: the card, 0 or the number of the refusal, and the reply's length.
#[repr(C)]
#[derive(Clone, Copy)]
pub struct Answered {
    pub card: Card,
    pub k: u8,
    pub len: usize,
}

// A reply that is a word, a number, CR and LF.
fn put_number(reply: &mut [u8], word: &[u8], v: Value) -> usize
    requires shortest_reply_in_bounds { shortest_reply ≤ length reply.old }
    requires word_len_bound { length word.now ≤ 3 }
    requires v_bound { v < 10 ^ max_digits }
    ensures reply_after { reply.new ≡ sets reply.old 0 (word.now ++ (decimal v ++ ending)) }
    ensures value { result ≡ length (word.now ++ (decimal v ++ ending)) }
    ensures upper_bound { result ≤ shortest_reply }
{
    text::put_numbered(reply, word, v, b"\r\n")
}

// The reply to a line.
#[tactic(auto, unfolding(crate::specs::Line::reply_of))]
fn put_reply(reply: &mut [u8], k: u8, r: Response) -> usize
    requires { shortest_reply ≤ length reply.old }
    ensures reply_after { reply.new ≡ sets reply.old 0 (reply_of k r) }
    ensures value { result ≡ length (reply_of k r) }
    ensures upper_bound { result ≤ shortest_reply }
{
    if k != 0 {
        return put_number(reply, b":N-", k as Value);
    }
    match r {
        Response::Number(v) => put_number(reply, b":A ", v),
        Response::Silent | Response::Saves => text::copy(reply, 0, b":A\r\n"),
    }
}

// Saves the record, where that was asked.
pub fn save_if(asked: bool, card: Card, store: &mut [u8])
    ensures { store.new
        ≡ cond asked (saved_to (cells_for card.size) config_width card store.old) store.old }
{
    if asked {
        saved::record::save(card, store);
    }
}

// What becomes of a line, by the lengths of the two buffers.
pub fn judge(card: Card, text: &[u8], reply: usize, store: usize) -> Result<Accepted, Refused>
    ensures { result
        ≡ line_decision (cells_for card.size) (context_of (cells_for card.size) card)
        text.now reply store }
{
    if reply < SHORTEST_REPLY {
        return Err(Refused::NoRoom);
    }
    let x = card::context::context_of(card);
    decide_for(x, store, parse_line(text, card.size))
}

// What a line comes to: 0 or the number of its refusal, the card then, and the response. The
// definitions go by it; the code changes the card last.
#[derive(Clone, Copy)]
pub struct Outcome {
    pub k: u8,
    pub card: Card,
    pub response: Response,
}

// The reply, where its buffer has room for one.
pub fn put_reply_if(reply: &mut [u8], k: u8, r: Response) -> usize
    ensures reply_after { reply.new ≡ sets reply.old 0 (reply_with (length reply.old) k r) }
    ensures value { result ≡ length (reply_with (length reply.old) k r) }
    ensures upper_bound { result ≤ shortest_reply }
{
    if reply.len() < SHORTEST_REPLY {
        return 0;
    }
    put_reply(reply, k, r)
}

// A line to the card: any bytes, without the line's own ending. The reply is written to the front
// of its buffer, and `36SS Z` writes the record to the front of the store; beyond these both are as
// they were. A refused line gives its number and leaves the card. Where the buffer has fewer than
// SHORTEST_REPLY bytes, that number is 1 and nothing is written. The card is changed last: held in
// an outcome it costs some 200 instructions more.
pub fn line(card: Card, text: &[u8], reply: &mut [u8], store: &mut [u8]) -> Answered
    ensures store_after { result_of result reply.new store.new
        ≡ line_result (cells_for card.size) card text.now reply.old store.old }
    ensures len_le_shortest_reply { result.len ≤ shortest_reply }
{
    match judge(card, text, reply.len(), store.len()) {
        Ok(accepted) => {
            let len = put_reply_if(reply, 0, accepted.response);
            save_if(accepted.response.saves(), card, store);
            Answered {
                card: card::change::apply(card, accepted.change),
                k: 0,
                len,
            }
        }
        Err(why) => {
            let k = why.number();
            let len = put_reply_if(reply, k, Response::Silent);
            Answered { card, k, len }
        }
    }
}
