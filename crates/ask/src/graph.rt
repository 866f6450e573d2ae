// The authority graph of a subject as Graphviz text: an arrow from issuer to audience for each delegation of the subject's closure, live or
// not, and a red one from revoker to audience for each revocation. Names have no quotes, so they stand between quotes as they are.
use crate::kernel::{Kind, Member, Store};
use crate::say;
use keyline::refusal::Refusal;
use notation::level;
use notation::statement::{Delegation, Revocation};
use power_levels::power::Power;
use std::io;
use text::name::Name;

pub(crate) fn graph(rt: &impl Print, store: &Store, subject: &Name) -> io::Result<()> {
    let evaluation = store.evaluate();
    print!(rt; "digraph ")?;
    quoted(rt, subject)?;
    println!(rt; " {{")?;
    rt.println("  rankdir=LR;")?;
    rt.println("  node [shape=box, color=grey, fontcolor=grey];")?;
    print!(rt; "  ")?;
    quoted(rt, subject)?;
    rt.println(" [shape=doubleoctagon, color=black, fontcolor=black];")?;
    // The members, each with its level; a key with no power comes in by its arrows, and is grey.
    if let Ok(members) = evaluation.members(subject) {
        for member in members.as_slice() {
            node(rt, member)?;
        }
    }
    if let Ok(list) = evaluation.closure(subject) {
        for digest in list.of(Kind::Delegation) {
            if let Ok(Some(held)) = store.delegation(digest) {
                delegation(rt, &held, evaluation.conveyed_power(digest))?;
            }
        }
        for digest in list.of(Kind::Revocation) {
            if let Ok(Some(held)) = store.revocation(digest) {
                revocation(rt, store, &held)?;
            }
        }
    }
    rt.println("}")
}

fn quoted(rt: &impl Print, name: &Name) -> io::Result<()> {
    print!(rt; "\"")?;
    say::name(rt, name)?;
    print!(rt; "\"")
}

fn node(rt: &impl Print, member: &Member) -> io::Result<()> {
    print!(rt; "  ")?;
    quoted(rt, &member.key)?;
    print!(rt; " [label=\"")?;
    say::name(rt, &member.key)?;
    let level = say::level_or(member.power, "no level");
    println!(rt; "\\n{level}\", color=black, fontcolor=black];")
}

fn arrow(rt: &impl Print, from: &Name, to: &Name) -> io::Result<()> {
    print!(rt; "  ")?;
    quoted(rt, from)?;
    print!(rt; " -> ")?;
    quoted(rt, to)
}

fn delegation(
    rt: &impl Print,
    held: &Delegation,
    conveyed: Result<Option<Power>, Refusal>,
) -> io::Result<()> {
    arrow(rt, &held.issuer, &held.audience)?;
    print!(rt; " [label=\"")?;
    say::name(rt, &held.digest)?;
    print!(rt; ": {} over ", level::name(held.power))?;
    say::name(rt, &held.subject)?;
    style(rt, conveyed, held.power)
}

// A dead delegation conveys nothing; one that is capped conveys less than it states, and both levels are said.
fn style(
    rt: &impl Print,
    conveyed: Result<Option<Power>, Refusal>,
    stated: Power,
) -> io::Result<()> {
    match conveyed {
        Ok(None) => rt.println("\", style=dashed, color=grey, fontcolor=grey];"),
        Ok(Some(power)) if level::name(power) != level::name(stated) => {
            println!(rt; "\\nconveys {}\"];", level::name(power))
        }
        _ => rt.println("\"];"),
    }
}

// From the revoker to the audience of what it revokes.
fn revocation(rt: &impl Print, store: &Store, held: &Revocation) -> io::Result<()> {
    if let Ok(Some(revoked)) = store.delegation(&held.revoked) {
        arrow(rt, &held.issuer, &revoked.audience)?;
        print!(rt; " [label=\"")?;
        say::name(rt, &held.digest)?;
        print!(rt; ": revokes ")?;
        say::name(rt, &held.revoked)?;
        rt.println("\", color=red, fontcolor=red];")?;
    }
    Ok(())
}
