// Questions whose answer is a list of certificates or of subjects.
use crate::kernel::{Certificates, Keys, Kind, Store};
use crate::{say, show};
use keyline::refusal::Refusal;
use std::io;
use text::name::Name;

// What each fact for programs begins with: the question's word, and the names that it was asked about.
#[derive(Clone, Copy)]
pub(crate) struct Heading<'a> {
    pub(crate) word: &'static str,
    pub(crate) names: &'a [Name],
}

impl Heading<'_> {
    fn say(&self, rt: &impl Print) -> io::Result<()> {
        rt.print(self.word)?;
        for name in self.names {
            print!(rt; " ")?;
            say::name(rt, name)?;
        }
        Ok(())
    }

    // How many items follow, as a fact of its own: an empty list is an answer too.
    pub(crate) fn say_count(&self, rt: &impl Print, count: usize) -> io::Result<()> {
        self.begin_count(rt)?;
        println!(rt; " {count}")
    }

    fn begin_count(&self, rt: &impl Print) -> io::Result<()> {
        print!(rt; "count ")?;
        self.say(rt)
    }

    fn say_fact(&self, rt: &impl Print, kind: Kind, digest: &Name) -> io::Result<()> {
        self.say(rt)?;
        match kind {
            Kind::Delegation => print!(rt; " delegation ")?,
            Kind::Revocation => print!(rt; " revocation ")?,
        }
        say::name(rt, digest)?;
        rt.println("")
    }
}

// The kinds of certificates that were asked for, each with its count, and each certificate on a line of its own.
pub(crate) fn certificates(
    rt: &impl Print,
    store: &Store,
    heading: Heading<'_>,
    kinds: &[Kind],
    listed: Result<Certificates, Refusal>,
    plain: bool,
) -> io::Result<()> {
    match listed {
        Ok(list) if plain => facts(rt, heading, kinds, &list),
        Ok(list) if list.is_empty() => say::none(rt),
        Ok(list) => lines(rt, store, kinds, &list),
        Err(why) => say::refused_line(rt, why),
    }
}

fn facts(
    rt: &impl Print,
    heading: Heading<'_>,
    kinds: &[Kind],
    list: &Certificates,
) -> io::Result<()> {
    heading.begin_count(rt)?;
    for kind in kinds {
        print!(rt; " {}", list.of(*kind).len())?;
    }
    rt.println("")?;
    for kind in kinds {
        for digest in list.of(*kind) {
            heading.say_fact(rt, *kind, digest)?;
        }
    }
    Ok(())
}

fn lines(rt: &impl Print, store: &Store, kinds: &[Kind], list: &Certificates) -> io::Result<()> {
    for kind in kinds {
        for digest in list.of(*kind) {
            show::certificate(rt, store, *kind, digest)?;
        }
    }
    Ok(())
}

pub(crate) fn subjects(
    rt: &impl Print,
    listed: Result<Keys, Refusal>,
    plain: bool,
) -> io::Result<()> {
    let subjects = match listed {
        Ok(subjects) => subjects,
        Err(why) => return say::refused_line(rt, why),
    };
    if plain {
        let heading = Heading {
            word: "subjects",
            names: &[],
        };
        heading.say_count(rt, subjects.len())?;
    } else if subjects.is_empty() {
        say::none(rt)?;
    }
    for subject in subjects.as_slice() {
        rt.print(if plain { "subject " } else { "  " })?;
        say::name(rt, subject)?;
        rt.println("")?;
    }
    Ok(())
}
