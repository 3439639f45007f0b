// How the program ends.
ghost use Rattle.std.specs.Prelude.{◌≡◌};
ghost use Rattle.lhg_cli.specs.Numbers.{number_of};

/// How the program ends, with the numbers 0 to 9 in this order.
#[derive(Clone, Copy, Debug, PartialEq, Eq)]
pub enum Status {
    /// The defined answer was written.
    Done,
    /// The answer is no.
    No,
    /// The words are none that the program knows.
    Words,
    /// The input is too long, or is no text of the grammar.
    Text,
    /// A number was past its limit.
    Wide,
    /// A list was past its limit.
    Lists,
    /// The budget of rounds was spent.
    Spent,
    /// A read failed.
    Read,
    /// A write failed.
    Write,
    /// Memory is out.
    Memory,
}

impl Status {
    /// The number with which the program ends.
    pub fn number(self) -> u8
        ensures { result ≡ number_of self }
    {
        match self {
            Status::Done => 0,
            Status::No => 1,
            Status::Words => 2,
            Status::Text => 3,
            Status::Wide => 4,
            Status::Lists => 5,
            Status::Spent => 6,
            Status::Read => 7,
            Status::Write => 8,
            Status::Memory => 9,
        }
    }
}
