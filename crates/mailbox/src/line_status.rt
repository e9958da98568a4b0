// The answer of a device's line test: that of the poison list, or that media is disabled (document 02, W-207), of which the list does not know.
ghost use Rattle.std.specs.Prelude.{◌≡◌};
ghost use Rattle.mailbox.specs.LineStatus.{status_of, status_number, status_type};

use poison::line_test::LineTest;

#[derive(Clone, Copy, Debug, PartialEq, Eq, Hash)]
pub enum LineStatus {
    Clean,
    Damaged(u8),
    Unknown,
    Disabled,
}

// The list's answer as the device's.
impl From<LineTest> for LineStatus {
    ghost from_gives = { λ answer status. status ≡ status_of answer };

    fn from(answer: LineTest) -> LineStatus {
        match answer {
            LineTest::Clean => LineStatus::Clean,
            LineTest::Damaged(kind) => LineStatus::Damaged(kind),
            LineTest::Unknown => LineStatus::Unknown,
        }
    }
}

// Document 01's number of each case.
pub fn status_number(answer: LineStatus) -> u64
    ensures { result ≡ status_number answer }
{
    match answer {
        LineStatus::Clean => 0,
        LineStatus::Damaged(_) => 1,
        LineStatus::Unknown => 2,
        LineStatus::Disabled => 3,
    }
}

// The type beside it, 0 where there is none.
pub fn status_type(answer: LineStatus) -> u64
    ensures { result ≡ status_type answer }
{
    match answer {
        LineStatus::Clean => 0,
        LineStatus::Damaged(kind) => u64::from(kind),
        LineStatus::Unknown => 0,
        LineStatus::Disabled => 0,
    }
}
