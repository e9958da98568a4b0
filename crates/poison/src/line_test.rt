// Line test (document 01, "Poison list"), of a line of the device: its caller has checked the address.
ghost use Rattle.std.specs.Prelude.{◌≡◌};
ghost use Rattle.poison.specs.State.{state_of, capacity, ValidShapes};
ghost use Rattle.poison.specs.LineTest.{line_test};

use crate::list::PoisonList;

// What the host is told of a line; document 01's numbers are `answer_number` and `answer_type`.
#[derive(Clone, Copy, Debug, PartialEq, Eq, Hash)]
pub enum LineTest {
    Clean,
    Damaged(u8),
    Unknown,
}

impl PoisonList {
    // Line test of a line.
    pub fn test(&self, line: u32) -> LineTest
        requires { ValidShapes capacity self.now }
        ensures { result ≡ line_test (state_of self.now) line }
    {
        match self.cover(line) {
            Some(at) => LineTest::Damaged(self.kinds[at]),
            None if self.overflow => LineTest::Unknown,
            None => LineTest::Clean,
        }
    }
}
