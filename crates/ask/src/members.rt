// The members of a subject, as a table of names and levels.
use crate::kernel::{Member, Members};
use crate::list::Heading;
use crate::say;
use keyline::refusal::Refusal;
use std::io;
use text::name::Name;

pub(crate) fn members(
    rt: &impl Print,
    subject: &Name,
    listed: Result<Members, Refusal>,
    plain: bool,
) -> io::Result<()> {
    match listed {
        Ok(members) if plain => facts(rt, subject, members.as_slice()),
        Ok(members) => table(rt, members.as_slice()),
        Err(why) => say::refused_line(rt, why),
    }
}

fn facts(rt: &impl Print, subject: &Name, members: &[Member]) -> io::Result<()> {
    let heading = Heading {
        word: "members",
        names: &[*subject],
    };
    heading.say_count(rt, members.len())?;
    for member in members {
        print!(rt; "member ")?;
        say::name(rt, subject)?;
        print!(rt; " ")?;
        say::name(rt, &member.key)?;
        println!(rt; " {}", say::level_or(member.power, "no level"))?;
    }
    Ok(())
}

// Every member on a line of its own, its level in a column behind the longest name.
fn table(rt: &impl Print, members: &[Member]) -> io::Result<()> {
    if members.is_empty() {
        return say::none(rt);
    }
    let lengths = members.iter().map(|member| member.key.text().len());
    let width = lengths.max().unwrap_or(0);
    for member in members {
        print!(rt; "  ")?;
        say::name(rt, &member.key)?;
        let left = width.saturating_sub(member.key.text().len());
        let level = say::level_or(member.power, "no level");
        println!(rt; "{:left$}  {level}", "")?;
    }
    Ok(())
}
