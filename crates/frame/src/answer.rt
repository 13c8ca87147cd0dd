// What a call says back: document 01's numbers, each as a case with its meaning.
ghost use Rattle.std.specs.Prelude.{◌≡◌, length};
ghost use Rattle.frame.specs.Answer.{refusal_number, answer_number, answer_length, no_state, seen, refused};

use super::reply::clear;

#[derive(Clone, Copy, PartialEq, Eq)]
pub enum Refusal {
    OtherCluster,
    HeaderShort,
    ReservedFrameType,
    RecordCut,
    ReplyTooLong,
    NothingToSend,
    NotAStore,
    NotATable,
    NoNumber,
    NotSuchAReply,
    EmptyReport,
    NotReportable,
    NotASavedForm,
}

// The only place in the code that gives a refusal its number.
impl From<Refusal> for u8 {
    ghost from_gives = { λ why n. n ≡ refusal_number why };

    fn from(why: Refusal) -> u8 {
        match why {
            Refusal::OtherCluster => 1,
            Refusal::HeaderShort => 2,
            Refusal::ReservedFrameType => 3,
            Refusal::RecordCut => 4,
            Refusal::ReplyTooLong => 5,
            Refusal::NothingToSend => 6,
            Refusal::NotAStore => 7,
            Refusal::NotATable => 8,
            Refusal::NoNumber => 9,
            Refusal::NotSuchAReply => 10,
            Refusal::EmptyReport => 11,
            Refusal::NotReportable => 12,
            Refusal::NotASavedForm => 13,
        }
    }
}

// A reply of so many bytes, or a refusal.
pub type Answer = Result<usize, Refusal>;

// Document 01's number of an answer: 0 of a reply.
pub fn answer_number(answer: Answer) -> u8
    ensures { result ≡ answer_number answer }
{
    match answer {
        Ok(_) => 0,
        Err(why) => u8::from(why),
    }
}

// The length of the reply; 0 of a refusal.
pub fn reply_len(answer: Answer) -> usize
    ensures { result ≡ answer_length answer }
{
    answer.unwrap_or(0)
}

// Refuses: nothing of a reply is left in the buffer.
pub fn refuse(reply: &mut [u8], why: Refusal) -> Answer
    ensures { seen result reply.new no_state ≡ refused (length reply.old) why no_state }
{
    clear(reply);
    Err(why)
}
