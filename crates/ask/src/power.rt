// Questions whose answer is one line: a key's power, and what a delegation conveys and whether it stands.
use crate::say::{Answer, Refused, level_or, name};
use keyline::refusal::Refusal;
use keyline::standing::Standing;
use notation::level;
use power_levels::power::Power;
use std::io;
use text::name::Name;

pub(crate) fn effective(
    rt: &impl Print,
    subject: &Name,
    key: &Name,
    power: Result<Option<Power>, Refusal>,
    plain: bool,
) -> io::Result<()> {
    if plain {
        return fact(rt, "power", subject, key, power);
    }
    words(rt, subject, key, power)?;
    rt.println("")
}

pub(crate) fn positive(
    rt: &impl Print,
    subject: &Name,
    key: &Name,
    power: Result<Option<Power>, Refusal>,
    plain: bool,
) -> io::Result<()> {
    if plain {
        return fact(rt, "positive", subject, key, power);
    }
    words(rt, subject, key, power)?;
    rt.println(", were nothing revoked")
}

fn fact(
    rt: &impl Print,
    word: &'static str,
    subject: &Name,
    key: &Name,
    power: Result<Option<Power>, Refusal>,
) -> io::Result<()> {
    print!(rt; "{word} ")?;
    name(rt, subject)?;
    print!(rt; " ")?;
    name(rt, key)?;
    println!(rt; " {}", Answer(power.map(|power| level_or(power, "none"))))
}

fn words(
    rt: &impl Print,
    subject: &Name,
    key: &Name,
    power: Result<Option<Power>, Refusal>,
) -> io::Result<()> {
    print!(rt; "  ")?;
    name(rt, key)?;
    match power {
        Ok(Some(power)) => print!(rt; " has {} over ", level::name(power))?,
        Ok(None) => print!(rt; " has no power over ")?,
        Err(why) => print!(rt; ": {} for ", Refused(why))?,
    }
    name(rt, subject)
}

pub(crate) fn conveys(
    rt: &impl Print,
    digest: &Name,
    power: Result<Option<Power>, Refusal>,
    plain: bool,
) -> io::Result<()> {
    if plain {
        let answer = Answer(power.map(|power| level_or(power, "none")));
        return line(rt, "conveys ", digest, answer);
    }
    print!(rt; "  ")?;
    name(rt, digest)?;
    println!(rt;
        " conveys {}",
        Answer(power.map(|power| level_or(power, "nothing")))
    )
}

pub(crate) fn live(
    rt: &impl Print,
    digest: &Name,
    live: Result<bool, Refusal>,
    plain: bool,
) -> io::Result<()> {
    if plain {
        let answer = Answer(live.map(|live| if live { "yes" } else { "no" }));
        return line(rt, "live ", digest, answer);
    }
    let answer = Answer(live.map(|live| if live { "is live" } else { "is not live" }));
    line(rt, "  ", digest, answer)
}

pub(crate) fn standing(
    rt: &impl Print,
    digest: &Name,
    standing: Result<Option<Standing>, Refusal>,
    plain: bool,
) -> io::Result<()> {
    if plain {
        let answer = Answer(standing.map(|standing| standing_word(standing)));
        return line(rt, "standing ", digest, answer);
    }
    let answer = Answer(standing.map(|standing| standing_words(standing)));
    line(rt, "  ", digest, answer)
}

fn standing_word(standing: Option<Standing>) -> &'static str {
    match standing {
        Some(Standing::Live) => "Live",
        Some(Standing::Revoked) => "Revoked",
        Some(Standing::Unsupported) => "Unsupported",
        None => "absent",
    }
}

fn standing_words(standing: Option<Standing>) -> &'static str {
    match standing {
        Some(Standing::Live) => "is live",
        Some(Standing::Revoked) => "is revoked",
        Some(Standing::Unsupported) => {
            "is unsupported: its issuer has no power over its subject"
        }
        None => "is no delegation that is held",
    }
}

// What is said of a delegation.
fn line(rt: &impl Print, before: &'static str, digest: &Name, said: Answer) -> io::Result<()> {
    print!(rt; "{before}")?;
    name(rt, digest)?;
    println!(rt; " {said}")
}
