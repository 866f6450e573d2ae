// The levels' names, as people write and read them.
use power_levels::power::Power;

pub fn name(power: Power) -> &'static str {
    match power {
        Power::Relay => "Relay",
        Power::Read => "Read",
        Power::Edit => "Edit",
        Power::Admin => "Admin",
    }
}

// The level that a word names, if it names one.
pub fn named(word: &[u8]) -> Option<Power> {
    match word {
        b"Relay" => Some(Power::Relay),
        b"Read" => Some(Power::Read),
        b"Edit" => Some(Power::Edit),
        b"Admin" => Some(Power::Admin),
        _ => None,
    }
}
