// What a host may ask of its analyser, and what it is answered.
use host_analyser::Refusal;

// A question about the rows of the standing units. Places and names are written as in unit texts, without blanks.
#[derive(Clone, Copy)]
pub enum Question<'a> {
    // whether the place's row has the name's object
    Points { place: &'a [u8], name: &'a [u8] },
    // whether the rows of two places share an object
    Alias { first: &'a [u8], second: &'a [u8] },
}

// One call of a host, with its arguments; a targets call also with what its buffer holds.
#[derive(Clone, Copy)]
pub enum Call<'a> {
    Settle,
    Load {
        unit: u32,
        text: &'a [u8],
    },
    Unload {
        unit: u32,
    },
    Ask(Question<'a>),
    Targets {
        unit: u32,
        index: u32,
        buffer: &'a [u8],
    },
}

// What a call has done or found. A targets call is always answered, since its buffer comes back also where it is refused.
#[derive(Drop)]
pub enum Answer {
    Settled,
    Loaded,
    Unloaded,
    Whether(bool),
    // the bytes written or the refusal, and what the buffer then holds
    Listed {
        outcome: Result<usize, Refusal>,
        buffer: Vec<u8>,
    },
}

// What a call is answered.
pub type Reply = Result<Answer, Refusal>;
