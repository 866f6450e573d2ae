// Power levels (power.rs). The order is by rank and never by byte: `A` is the highest level and the lowest byte of the four.
use std::error::Error;
use std::fmt;

// What an edge conveys; each level implies the ones below. The variants stand in the order of their ranks, which the derived order goes by.
#[derive(Clone, Copy, Debug, PartialEq, Eq, PartialOrd, Ord)]
pub enum Power {
    // Sync and forward ciphertext; cannot decrypt.
    Relay,
    // Decrypt content.
    Read,
    // Write content.
    Edit,
    // Manage membership; act as the subject for revocation.
    Admin,
}

// The byte is no power level.
#[derive(Clone, Copy, Debug, PartialEq, Eq)]
pub struct InvalidPower(pub u8);

impl Power {
    ghost use Rattle.std.specs.Prelude.{◌≡◌};
    ghost use Rattle.power_levels.specs.Power.{rank_of, at_rank, byte_of, at_least, is_reader, is_editor, is_admin};

    // Position in the lattice, counting from Relay.
    pub fn rank(self) -> u8
        ensures { result ≡ rank_of self }
    {
        match self {
            Power::Relay => 0,
            Power::Read => 1,
            Power::Edit => 2,
            Power::Admin => 3,
        }
    }

    // The level of this rank, or Admin where no level has it.
    #[tactic(auto, unfolding(crate::specs::Power::at_rank))]
    pub fn from_rank(rank: u8) -> Power
        ensures { result ≡ at_rank rank }
    {
        match rank {
            0 => Power::Relay,
            1 => Power::Read,
            2 => Power::Edit,
            _ => Power::Admin,
        }
    }

    // The byte that stands for the level in a payload.
    pub fn byte(self) -> u8
        ensures { result ≡ byte_of self }
    {
        match self {
            Power::Relay => b'L',
            Power::Read => b'R',
            Power::Edit => b'E',
            Power::Admin => b'A',
        }
    }

    // Whether self is other or above it, by rank.
    pub fn at_least(self, other: Power) -> bool
        ensures { result ≡ at_least self other }
    {
        self >= other
    }

    // At least Read: may decrypt.
    pub fn is_reader(self) -> bool
        ensures { result ≡ is_reader self }
    {
        self >= Power::Read
    }

    // At least Edit: may write.
    pub fn is_editor(self) -> bool
        ensures { result ≡ is_editor self }
    {
        self >= Power::Edit
    }

    // Exactly Admin: may govern.
    pub fn is_admin(self) -> bool
        ensures { result ≡ is_admin self }
    {
        self == Power::Admin
    }
}

impl TryFrom<u8> for Power {
    ghost use Rattle.std.specs.Prelude.{◌≡◌};
    ghost use Rattle.power_levels.specs.Power.{level_of};

    type Error = InvalidPower;

    // The level that a byte stands for, where it stands for one.
    ghost try_from_gives = { λ b r. r ≡ level_of b };

    #[tactic(auto, unfolding(crate::specs::Power::level_of))]
    fn try_from(byte: u8) -> Result<Self, InvalidPower> {
        match byte {
            b'L' => Ok(Power::Relay),
            b'R' => Ok(Power::Read),
            b'E' => Ok(Power::Edit),
            b'A' => Ok(Power::Admin),
            _ => Err(InvalidPower(byte)),
        }
    }
}

impl fmt::Display for Power {
    fn fmt<W: fmt::Write>(&self, f: &mut fmt::Formatter<W>) -> fmt::Result {
        f.write_str(match self {
            Power::Relay => "Relay",
            Power::Read => "Read",
            Power::Edit => "Edit",
            Power::Admin => "Admin",
        })
    }
}

impl fmt::Display for InvalidPower {
    fn fmt<W: fmt::Write>(&self, f: &mut fmt::Formatter<W>) -> fmt::Result {
        write!(f, "{} is not a power level", self.0)
    }
}

impl Error for InvalidPower {}
