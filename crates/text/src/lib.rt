// The answer to a command sheet as a whole, `Result<(), SheetRefusal>`. The rest of text is values, lines and results
// as bytes, of which nothing runs here: what they mean stands in specs/, to be read in the order of specs/Lib.antt.
#![tactic(auto)]

ghost use Rattle.std.specs.Prelude.{◌≡◌};
ghost use Rattle.text.specs.Forms.{refusal_number, refusal_line};

// Why a sheet is refused as a whole. Document 01, "Where each command is checked".
#[derive(Clone, Copy, PartialEq, Eq)]
pub enum SheetRefusal {
    // over 65,536 bytes
    TooLong,
    // the first line differs
    FirstLine,
    // the value line of this number is of another form
    ValueLine(u64),
}

impl SheetRefusal {
    // The number that document 01 gives it.
    pub fn number(self) -> u64
        ensures { result ≡ refusal_number self }
    {
        match self {
            SheetRefusal::TooLong => 1,
            SheetRefusal::FirstLine => 2,
            SheetRefusal::ValueLine(_) => 3,
        }
    }

    // The line where it stands: 0 for a size.
    pub fn line(self) -> u64
        ensures { result ≡ refusal_line self }
    {
        match self {
            SheetRefusal::TooLong => 0,
            SheetRefusal::FirstLine => 1,
            SheetRefusal::ValueLine(line) => line,
        }
    }
}
