// The level that a byte of an evaluation's row says.
ghost use Rattle.std.specs.Prelude.{◌≤◌};
ghost use Rattle.rules.specs.Rows.{level_of};
ghost use Rattle.power_levels.specs.Power.{level_count};
ghost use Rattle.answers.specs.Answers.{LevelIs};

use power_levels::power::Power;

// 0 is none, and l + 1 the level of rank l.
pub fn level_of(byte: u8) -> Option<Power>
    requires { byte ≤ level_count }
    ensures { LevelIs (level_of byte) result }
{
    match byte {
        0 => None,
        b => Some(Power::from_rank(b - 1)),
    }
}
