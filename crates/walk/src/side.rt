// Where the forms of one machine are kept.
ghost use Rattle.std.specs.Prelude.{◌+◌, ◌≤◌};
ghost use Rattle.walk.specs.Places.{known_first};

use workspace::Group;

// The slots of its registers, among the first 32, and the first of its sixteen outputs, behind them and before the known tests.
#[derive(Clone, Copy)]
pub struct Side {
    pub registers: Group,
    pub outputs: usize,
    ghost low: { registers.first + registers.count ≤ 32 },
    ghost behind: { 32 ≤ outputs },
    ghost before: { outputs + 16 ≤ known_first },
}
