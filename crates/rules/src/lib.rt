// The types of the card: what the book (specs/) speaks of, and what the code passes and returns.
// A thing that may be absent is an `Option`, and a rule that may end a command is a `Result` whose error is the fault that is answered.

#![tactic(auto)]

ghost use Rattle.std.specs.Prelude.{◌≡◌};
ghost use Rattle.rules.specs.Fault.{word_of};

// ---- what the host lends (01, under this name)

// They are passed beside the session and not in one struct: of a struct that holds `&mut`s each function would have to say that its fields keep
// their ghost names. The response buffer stays a slice of at least 258 bytes: a host may lend a longer one, and what is promised holds of it.
pub type Store = [u8; 33400];

pub type Work = [u8; 13321];

// ---- the session

// INS, keys and algorithms are bytes and no enums: a session that the host hands in holds any byte there (`possible`, refusal 2), and `get_data`,
// `put_data`, `authenticate` and pin's `command` promise for any header.

// An open command chain: what its pieces share, and how many of its bytes the work area holds.
#[derive(Clone, Copy)]
pub struct Chain {
    pub ins: u8,
    pub p1: u8,
    pub p2: u8,
    pub len: usize,
}

// The rest of a response: the whole's length, and how much of it is fetched.
#[derive(Clone, Copy)]
pub struct Rest {
    pub whole: usize,
    pub fetched: usize,
}

// A job that the host does: its key, its algorithm and the expected length of its command.
#[derive(Clone, Copy)]
pub struct Job {
    pub key: u8,
    pub alg: u8,
    pub le: usize,
}

// Of a challenge that was handed out the expected reply is kept, its eight bytes as one number.
#[derive(Clone, Copy)]
pub struct Session {
    pub contactless: bool,
    pub pin: bool,
    pub admin: bool,
    pub chain: Option<Chain>,
    pub rest: Option<Rest>,
    pub challenge: Option<u64>,
    pub job: Option<Job>,
}

// ---- what a call answers

// Why a call is refused. 01's number of each is `refusal_number` of specs/Calls.
#[derive(Clone, Copy)]
pub enum Refusal {
    IllStore,
    IllSession,
    ShortResponse,
    WrongWork,
    JobOpen,
    NoJob,
    WrongResult,
}

// A response stands in the first `len` bytes of the response buffer, and so do a job's data. A length and no slice: the buffer is the host's again.
#[derive(Clone, Copy)]
pub enum Answer {
    PoweredOn,
    Response { len: usize },
    JobOpened { key: u8, alg: u8, len: usize },
    Refused(Refusal),
}

#[derive(Clone, Copy)]
pub struct Reply {
    pub answer: Answer,
    pub session: Session,
}

// ---- what a rule says

// Why a command is not done. 01's status word of each is `word_of` of specs/Fault, and `From` below.
#[derive(Clone, Copy)]
pub enum Fault {
    // 63CX, X the tries left
    NotEqual { left: u8 },
    // 6700
    WrongLength,
    // 6882
    SecureMessaging,
    // 6884
    NoChaining,
    // 6982
    NotAllowed,
    // 6983
    Blocked,
    // 6985
    NothingHeld,
    // 6A80
    WrongData,
    // 6A81
    NotSupported,
    // 6A82
    NotFound,
    // 6A84
    NoRoom,
    // 6A86
    WrongParameters,
    // 6A88
    NoReference,
    // 6D00
    UnknownIns,
    // 6E00
    UnknownCla,
    // 6F00
    JobFailed,
}

impl From<Fault> for u16 {
    ghost from_gives = { λ f n. n ≡ word_of f };

    fn from(fault: Fault) -> u16 {
        match fault {
            Fault::NotEqual { left } => 0x63C0 + u16::from(left),
            Fault::WrongLength => 0x6700,
            Fault::SecureMessaging => 0x6882,
            Fault::NoChaining => 0x6884,
            Fault::NotAllowed => 0x6982,
            Fault::Blocked => 0x6983,
            Fault::NothingHeld => 0x6985,
            Fault::WrongData => 0x6A80,
            Fault::NotSupported => 0x6A81,
            Fault::NotFound => 0x6A82,
            Fault::NoRoom => 0x6A84,
            Fault::WrongParameters => 0x6A86,
            Fault::NoReference => 0x6A88,
            Fault::UnknownIns => 0x6D00,
            Fault::UnknownCla => 0x6E00,
            Fault::JobFailed => 0x6F00,
        }
    }
}

// What a rule on references says, and the PIN status after it.
#[derive(Clone, Copy)]
pub struct Judged {
    pub said: Result<(), Fault>,
    pub given: bool,
}

// ---- a command, taken apart

// The header, the number of data bytes (they start at 5) and the expected length. That Le is at most 256 and a field at most 255 bytes are clauses
// and not in the type: the four functions named at `Session` promise for any header.
#[derive(Clone, Copy)]
pub struct Header {
    pub cla: u8,
    pub ins: u8,
    pub p1: u8,
    pub p2: u8,
    pub lc: usize,
    pub le: usize,
}

// ---- data objects

// When an object may be read.
#[derive(Clone, Copy)]
pub enum Access {
    Always,
    WithPin,
    Never,
}

// A BER length, and the place after it.
#[derive(Clone, Copy)]
pub struct Length {
    pub len: usize,
    pub next: usize,
}

// Where an object's value starts, and its length. A place and no slice, since `object_at` of the book is one (`once_ber-read_object`); so that it lies
// in its row is a clause of whoever reads it.
#[derive(Clone, Copy)]
pub struct Place {
    pub from: usize,
    pub len: usize,
}

// What the administrator's template says: give a challenge, or here is the reply.
#[derive(Clone, Copy)]
pub enum Admin {
    GiveChallenge,
    Reply { from: usize },
}
