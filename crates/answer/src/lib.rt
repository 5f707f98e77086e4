// The answer of a call: done, or a refusal with number and place ("The calls" of document 01).

#![tactic(auto)]

ghost use Rattle.std.specs.Prelude.{◌≡◌};
ghost use Rattle.answer.specs.Answers.{refusal_number_def, refusal_place_def, answer_number, answer_place, asked, result_asked};

// What is wrong: a case for each number of "The questions, in order", each with its place.
#[derive(Clone, Copy)]
pub enum Refusal {
    // 1: the sheet is not 8,704 bytes long
    SheetLength { place: usize },
    // 2: a block's check bytes are wrong; the place is the block
    CheckBytes { place: usize },
    // 3: bytes 0 to 2 of a block are wrong, n is not 1 to 60, or no node below n is in use
    BlockHead { place: usize },
    // 4: a byte or bit of a block that must be zero is not
    NotZero { place: usize },
    // 5: n is not 1 to 60, for a blank sheet
    NodeCount { place: usize },
    // 7: the sheet does not have the label, arrow or node
    BitRange { place: usize },
    // 11: the book is longer than 4,096 bytes
    BookLength { place: usize },
    // 12: the book ends where a byte is wanted; the place is its length
    BookEnds { place: usize },
    // 13: not a code of the sort wanted; the place of this and the next two is that byte
    BookCode { place: usize },
    // 14: a code deeper than level 32
    BookLevel { place: usize },
    // 15: a number out of range
    BookNumber { place: usize },
    // 16: a 33rd rule; the place is its first byte
    BookRules { place: usize },
    // 21 to 25: the same for an edit
    EditLength { place: usize },
    EditEnds { place: usize },
    EditCode { place: usize },
    EditLevel { place: usize },
    EditNumber { place: usize },
    // 26: bytes follow the edit; the place is the first of them
    EditExtra { place: usize },
    // 31: the carried book is longer than 16,384 bytes
    CarriedLength { place: usize },
    // 32: the carried book is deeper than 255 levels
    CarriedLevels { place: usize },
    // 33: the scratch or the output is too short; the place is the length needed
    OutputLength { place: usize },
    // 41: a rule does not hold; the place is the first such rule, from 0
    RuleBroken { place: usize },
    // 51: printing a sheet of this n and nodes in use could not give this page; the place is 0 for its length, else the first such line, from 0
    PageLine { place: usize },
    // 52: the sums of a block of the log are wrong; the place of this and the next is the block
    LogSums { place: usize },
    // 53: its fields are wrong, its number is above 65,534, it is cut short, or the log ends inside an edit
    LogBlock { place: usize },
    // 54: the node to be closed has a label or an arrow, or is the only one in use; the place is the node
    NodeTaken { place: usize },
    // 55: the store's length, its head, a filled sheet or an unfilled place is wrong
    StoreBytes { place: usize },
    // 56: a name that is not 1 to 7
    PlanName { place: usize },
    // 57: no sheet is kept under the name
    PlanUnfilled { place: usize },
    // 58: two sheets with more than 60 nodes together; the place is that total
    NodesTotal { place: usize },
    // 59: a step is cut, unknown or does not fit; the place is the step, from 0
    LawStep { place: usize },
    // 60: the last text is not the one sent; the place is the first byte that differs, or the shorter length
    TextSent { place: usize },
    // 61: n is not 1 to 3, or a label or arrow other than 0 is named
    SmallSheets { place: usize },
    // 62: a list of edits or the number of moves is out of range
    GameRange { place: usize },
    // 63: the table of names is wrong; the place is the first wrong token, or the table's length if a token is missing
    NameTable { place: usize },
    // 64: the words end where a token is wanted; the place is their length
    WordsEnd { place: usize },
    // 65: the token begins nothing of the sort wanted; the place of this and the next four is the token
    WordsStart { place: usize },
    // 66: the token is not the mark wanted
    WordsMark { place: usize },
    // 67: not a name or count of the sort wanted, or out of range
    WordsNumber { place: usize },
    // 68: the token begins something deeper than level 32
    WordsLevel { place: usize },
    // 69: a 33rd rule
    WordsRules { place: usize },
    // 70: the codes are longer than 4,096 bytes; the place is their length
    WordsLength { place: usize },
}

// An enum of its own and no Result: the form that document 01 names ("Some places and their forms").
#[derive(Clone, Copy)]
pub enum Answer {
    Done,
    Refused(Refusal),
}

impl Refusal {
    // The papers' number.
    pub fn number(self) -> usize
        ensures { result ≡ refusal_number_def self }
    {
        match self {
            Refusal::SheetLength { place: _ } => 1,
            Refusal::CheckBytes { place: _ } => 2,
            Refusal::BlockHead { place: _ } => 3,
            Refusal::NotZero { place: _ } => 4,
            Refusal::NodeCount { place: _ } => 5,
            Refusal::BitRange { place: _ } => 7,
            Refusal::BookLength { place: _ } => 11,
            Refusal::BookEnds { place: _ } => 12,
            Refusal::BookCode { place: _ } => 13,
            Refusal::BookLevel { place: _ } => 14,
            Refusal::BookNumber { place: _ } => 15,
            Refusal::BookRules { place: _ } => 16,
            Refusal::EditLength { place: _ } => 21,
            Refusal::EditEnds { place: _ } => 22,
            Refusal::EditCode { place: _ } => 23,
            Refusal::EditLevel { place: _ } => 24,
            Refusal::EditNumber { place: _ } => 25,
            Refusal::EditExtra { place: _ } => 26,
            Refusal::CarriedLength { place: _ } => 31,
            Refusal::CarriedLevels { place: _ } => 32,
            Refusal::OutputLength { place: _ } => 33,
            Refusal::RuleBroken { place: _ } => 41,
            Refusal::PageLine { place: _ } => 51,
            Refusal::LogSums { place: _ } => 52,
            Refusal::LogBlock { place: _ } => 53,
            Refusal::NodeTaken { place: _ } => 54,
            Refusal::StoreBytes { place: _ } => 55,
            Refusal::PlanName { place: _ } => 56,
            Refusal::PlanUnfilled { place: _ } => 57,
            Refusal::NodesTotal { place: _ } => 58,
            Refusal::LawStep { place: _ } => 59,
            Refusal::TextSent { place: _ } => 60,
            Refusal::SmallSheets { place: _ } => 61,
            Refusal::GameRange { place: _ } => 62,
            Refusal::NameTable { place: _ } => 63,
            Refusal::WordsEnd { place: _ } => 64,
            Refusal::WordsStart { place: _ } => 65,
            Refusal::WordsMark { place: _ } => 66,
            Refusal::WordsNumber { place: _ } => 67,
            Refusal::WordsLevel { place: _ } => 68,
            Refusal::WordsRules { place: _ } => 69,
            Refusal::WordsLength { place: _ } => 70,
        }
    }

    // The place.
    pub fn place(self) -> usize
        ensures { result ≡ refusal_place_def self }
    {
        match self {
            Refusal::SheetLength { place } => place,
            Refusal::CheckBytes { place } => place,
            Refusal::BlockHead { place } => place,
            Refusal::NotZero { place } => place,
            Refusal::NodeCount { place } => place,
            Refusal::BitRange { place } => place,
            Refusal::BookLength { place } => place,
            Refusal::BookEnds { place } => place,
            Refusal::BookCode { place } => place,
            Refusal::BookLevel { place } => place,
            Refusal::BookNumber { place } => place,
            Refusal::BookRules { place } => place,
            Refusal::EditLength { place } => place,
            Refusal::EditEnds { place } => place,
            Refusal::EditCode { place } => place,
            Refusal::EditLevel { place } => place,
            Refusal::EditNumber { place } => place,
            Refusal::EditExtra { place } => place,
            Refusal::CarriedLength { place } => place,
            Refusal::CarriedLevels { place } => place,
            Refusal::OutputLength { place } => place,
            Refusal::RuleBroken { place } => place,
            Refusal::PageLine { place } => place,
            Refusal::LogSums { place } => place,
            Refusal::LogBlock { place } => place,
            Refusal::NodeTaken { place } => place,
            Refusal::StoreBytes { place } => place,
            Refusal::PlanName { place } => place,
            Refusal::PlanUnfilled { place } => place,
            Refusal::NodesTotal { place } => place,
            Refusal::LawStep { place } => place,
            Refusal::TextSent { place } => place,
            Refusal::SmallSheets { place } => place,
            Refusal::GameRange { place } => place,
            Refusal::NameTable { place } => place,
            Refusal::WordsEnd { place } => place,
            Refusal::WordsStart { place } => place,
            Refusal::WordsMark { place } => place,
            Refusal::WordsNumber { place } => place,
            Refusal::WordsLevel { place } => place,
            Refusal::WordsRules { place } => place,
            Refusal::WordsLength { place } => place,
        }
    }
}

impl Answer {
    // The papers' number; 0 is done.
    pub fn number(self) -> usize
        ensures { result ≡ answer_number self }
    {
        match self {
            Answer::Done => 0,
            Answer::Refused(r) => r.number(),
        }
    }

    // The place; 0 for done.
    pub fn place(self) -> usize
        ensures { result ≡ answer_place self }
    {
        match self {
            Answer::Done => 0,
            Answer::Refused(r) => r.place(),
        }
    }

    // The answer as a result: `?` then ends a call at its first refusal.
    pub fn passed(self) -> Result<(), Refusal>
        ensures { result_asked result ≡ asked self }
    {
        match self {
            Answer::Done => Ok(()),
            Answer::Refused(r) => Err(r),
        }
    }
}
